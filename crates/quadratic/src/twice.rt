// The extension of an extension: again a field, by the same proof.
ghost use Rattle.std.specs.Prelude.{◌≡◌, ◌+◌, None, nat_le};
ghost use Rattle.refusal.specs.Due.{Decided, unless};
ghost use Rattle.field.specs.Operations.{root_of_order};
ghost use Rattle.quadratic.specs.Doubled.{doubled};

use crate::quadratic::Quadratic;
use field::field::Field;
use field::root::subgroup_root;
use refusal::refused::Refused;

// A root of one of the order 2^e, of which there are two orders more than in the field below.
pub fn root_in_quartic<F: Field>(e: u32) -> Result<Quadratic<Quadratic<F>>, Refused>
    ensures { Decided (unless (nat_le e (F.ops.adicity + 2)) 2 None) result (λ w. w ≡ root_of_order (doubled (doubled F.ops)) e) (Unit {0}) }
{
    subgroup_root(e)
}
