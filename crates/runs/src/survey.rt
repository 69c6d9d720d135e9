// A sheet from its first call to what is read from it.
ghost use Rattle.std.specs.Prelude.{◌≡◌, length};
ghost use Rattle.sheet.specs.Outcomes.{counted};
ghost use Rattle.runs.specs.Survey.{held, Outcome};

use crate::lent::Lent;
use crate::list::replay;
use crate::surveyed::Surveyed;
use field::field::Field;
use refusal::reason::Refusal;
use refusal::refused::Refused;
use sheet::call::Call;
use sheet::counts::Counts;
use sheet::head::calls::{make, plan};
use square::extend::extend;
use square::public::public;
use square::quotient::quotient;

// Makes a sheet, makes the listed calls one after another, then extends what stands, divides and publishes. Every answer is told, and
// the three at the end are told apart: extend and public are granted whether rows hold or not.
pub fn survey<F: Field>(
    counts: Counts,
    calls: &[Call<F>],
    lent: Lent<'_, F>,
) -> Result<Surveyed, Refused>
    ensures { let z = lent.exit in Outcome F.ops (counted counts) calls.now (held lent.entry) (length lent.entry.work.now) (length lent.entry.scratch.now) result (record { answers = z.0.now; entries = z.1.0.now; values = z.1.1.0.now; extended = z.1.1.1.0.now; quotient = z.1.1.1.1.0.now; public = z.1.1.1.1.1.0.now }) }
{
    let planned = plan::<F>(counts)?;
    if !lent.fits(&planned, calls.len()) {
        return Err(Refusal::WrongLength.at(0));
    }
    let Lent {
        answers,
        entries,
        values,
        extended,
        divided,
        published,
        work,
        scratch,
        spare_entries,
        spare_values,
    } = lent;
    let mut head = make(counts, values)?;
    replay(
        &mut head,
        entries,
        values,
        scratch,
        work,
        spare_entries,
        spare_values,
        calls,
        answers,
    );
    let extend = extend(&head, entries, values, extended);
    let quotient = quotient(&head, entries, values, divided, work);
    let public = public(&head, values, published);
    Ok(Surveyed {
        head,
        extend,
        quotient,
        public,
    })
}
