// Which field a circuit is surveyed over: that of its prime, with the fewest doublings that have the subgroup.
ghost use Rattle.std.specs.Prelude.{◌≡◌, ◌≤◌, not, ◌&&◌, length, nat_le};
ghost use Rattle.sheet.specs.Shape.{log_of_n};
ghost use Rattle.sheet.specs.Rules.{in_limits};
ghost use Rattle.sheet.specs.Outcomes.{counted};
ghost use Rattle.loading.specs.Loaded.{file_shape};
ghost use Rattle.writing.specs.Written.{rest};
ghost use Rattle.report.specs.Times.{times};
ghost use Rattle.report.specs.Means.{doublings, text_room, TellsBy};

use crate::circuit::tell_circuit;
use constraints::header::Header;
use constraints::reader::RowReader;
use field::field::Field;
use modular::f97::F97;
use modular::f12289::F12289;
use quadratic::quadratic::Quadratic;
use refusal::reason::Refusal;
use refusal::refused::Refused;
use sheet::counts::Counts;
use sheet::head::calls::plan;
use writing::writer::Writer;

// How often a field is doubled.
#[derive(Clone, Copy, PartialEq, Eq, Debug)]
enum Doublings {
    Never,
    Once,
    Twice,
}

// Whether a sheet's numbers are within the limits, but the field has no subgroup for its rows.
fn lacks_root<F: Field>(counts: Counts) -> bool
    ensures { let S = counted counts in result ≡ (in_limits S && not (nat_le (log_of_n S) F.ops.adicity)) }
{
    plan::<F>(counts).is_err_and(|e| e.reason == Refusal::NoRoot)
}

// How often the field of 97 elements is doubled.
fn doublings_of(header: Header) -> Doublings
    ensures { times result ≡ doublings 97 (file_shape header) }
{
    let Ok(publics) = u32::try_from(header.public()) else {
        return Doublings::Never;
    };
    let counts = Counts {
        wires: header.wires,
        publics,
        rows: header.rows,
    };
    if !lacks_root::<F97>(counts) {
        Doublings::Never
    } else if !lacks_root::<Quadratic<F97>>(counts) {
        Doublings::Once
    } else {
        Doublings::Twice
    }
}

// The text of a circuit over 97. Not inlined, so that its large tables take no stack over the other prime, or where nothing is opened.
#[inline(never)]
fn tell_over_97(reader: RowReader<'_>, witness: &[u8], out: &mut Writer<'_>) -> Result<(), Refused>
    requires { text_room ≤ length (rest out.old) }
    ensures { TellsBy 97 reader.entry witness.now out.old result out.new }
{
    match doublings_of(reader.header()) {
        Doublings::Never => tell_circuit::<F97>(reader, witness, out),
        Doublings::Once => tell_circuit::<Quadratic<F97>>(reader, witness, out),
        Doublings::Twice => tell_circuit::<Quadratic<Quadratic<F97>>>(reader, witness, out),
    }
}

// The text of an opened circuit over either prime, which the file gives as a number. No sheet needs a doubling of the larger field.
pub(crate) fn tell_reader(
    reader: RowReader<'_>,
    witness: &[u8],
    out: &mut Writer<'_>,
) -> Result<(), Refused>
    requires { text_room ≤ length (rest out.old) }
    ensures small { reader.entry.header.prime ≡ 97 → TellsBy 97 reader.entry witness.now out.old result out.new }
    ensures large { reader.entry.header.prime ≡ 12289 → TellsBy 12289 reader.entry witness.now out.old result out.new }
{
    if reader.header().prime == 97 {
        tell_over_97(reader, witness, out)
    } else {
        tell_circuit::<F12289>(reader, witness, out)
    }
}
