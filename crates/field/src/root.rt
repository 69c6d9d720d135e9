// The one place where a missing root becomes a refusal.
ghost use Rattle.std.specs.Prelude.{◌≡◌, None, nat_le};
ghost use Rattle.refusal.specs.Due.{Decided, unless};
ghost use Rattle.field.specs.Operations.{root_of_order};

use crate::field::Field;
use refusal::reason::Refusal;
use refusal::refused::Refused;

// The root of one of the order 2^e; refused where the field has none.
pub fn subgroup_root<F: Field>(e: u32) -> Result<F, Refused>
    ensures { Decided (unless (nat_le e F.ops.adicity) 2 None) result (λ w. w ≡ root_of_order F.ops e) (Unit {0}) }
{
    F::root(e).ok_or(Refusal::NoRoot.at(0))
}
