// What is proved once for all. The functions compute nothing: the contract of each is a theorem, so the check asks for the proof.
ghost use Rattle.transform.specs.Logarithm.{Logarithms};
ghost use Rattle.transform.specs.Theory.{Theory};

use field::field::Field;

// The theory of polynomials over a subgroup, for every field.
pub fn theory_stands<F: Field>()
    ensures { Theory F.ops }
{}

// Powers of two and their logarithms, by which lengths are judged.
pub fn logarithms_stand()
    ensures { Logarithms }
{}
