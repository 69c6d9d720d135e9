// A reading into a sheet's value table counts as assigns. The function computes nothing: its contract is the theorem.
ghost use Rattle.loading.specs.Assigns.{NumbersAssign, ReadingAssigns};

use field::field::Field;
use field::file_field::FileField;

pub fn reading_assigns<F: FileField>()
    ensures numbers { NumbersAssign F.ops }
    ensures reading { ReadingAssigns F.ops F.prime }
{}
