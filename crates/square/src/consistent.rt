// A consistent sheet: value 0 is one, and every used entry lies within the sheet.
ghost use Rattle.std.specs.Prelude.{◌≡◌, true, ◌&&◌, None, length};
ghost use Rattle.std.specs.Coded.{Coded-set};
ghost use Rattle.refusal.specs.Due.{Decided, unless};
ghost use Rattle.transform.specs.Polynomial.{coefficient};
ghost use Rattle.sheet.specs.Outcomes.{shape_of};
ghost use Rattle.square.specs.Rules.{all_inside, starts_with_one};

use crate::rows::are_inside;
use field::field::Field;
use refusal::reason::Refusal;
use refusal::refused::Refused;
use sheet::entry::Entry;
use sheet::head::Head;

// What the sheet's caller lends: the head, the used entries, and a value for each wire.
#[derive(Drop)]
pub(crate) struct ConsistentSheet<'a, F: Field> {
    pub(crate) head: &'a Head,
    pub(crate) used: &'a [Entry<F>],
    pub(crate) values: &'a [F],
    ghost places: { length values.now ≡ head.now.wires },
    ghost one: { coefficient F.ops values.now 0 ≡ F.ops.one } by { Coded-set F.code _ _ },
    ghost inside: { all_inside (shape_of head.now) used.now ≡ true },
}

impl<'a, F: Field> ConsistentSheet<'a, F> {
    // The sheet that has these parts; refused where it is not consistent.
    pub(crate) fn new(
        head: &'a Head,
        used: &'a [Entry<F>],
        values: &'a [F],
    ) -> Result<ConsistentSheet<'a, F>, Refused>
        requires { length values.now ≡ head.now.wires }
        ensures { let S = shape_of head.now in Decided (unless (starts_with_one F.ops S values.now && all_inside S used.now) 6 None) result (λ s. (s.head.now ≡ head.now) × (s.used.now ≡ used.now) × (s.values.now ≡ values.now)) (Unit {0}) }
    {
        if values[0].same(F::one()) && are_inside(head, used) {
            Ok(ConsistentSheet { head, used, values })
        } else {
            Err(Refusal::Inconsistent.at(0))
        }
    }
}
