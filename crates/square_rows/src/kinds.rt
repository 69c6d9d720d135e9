// Which row says what.
ghost use Rattle.std.specs.Prelude.{◌≡◌};
ghost use Rattle.sheet.specs.Outcomes.{shape_of};
ghost use Rattle.square.specs.Program.{public_kind, product_kind, kind};
ghost use Rattle.square_rows.specs.RowKinds.{shown, Within};

use crate::row_kind::RowKind;
use sheet::head::Head;
use square::left::stride_of;

// Multiple number t of the stride.
fn kind_of_multiple(head: &Head, t: usize) -> RowKind
    ensures is { shown result ≡ public_kind (shape_of head.now) t }
    ensures within { Within (shape_of head.now) result }
{
    if t >= 2 * head.publics() {
        RowKind::Empty
    } else if t % 2 == 0 {
        RowKind::PublicPlus(t / 2)
    } else {
        RowKind::PublicMinus(t / 2)
    }
}

// Number x among the other rows. Apart from its twin, since one function would take the bound and both kinds, which is no plainer.
fn kind_of_other(head: &Head, x: usize) -> RowKind
    ensures is { shown result ≡ product_kind (shape_of head.now) x }
    ensures within { Within (shape_of head.now) result }
{
    if x >= 2 * head.rows() {
        RowKind::Empty
    } else if x % 2 == 0 {
        RowKind::RowMinus((x / 2) as u32)
    } else {
        RowKind::RowPlus((x / 2) as u32)
    }
}

pub(crate) fn kind_of(head: &Head, r: usize) -> RowKind
    ensures is { shown result ≡ kind (shape_of head.now) r }
    ensures within { Within (shape_of head.now) result }
{
    let stride = stride_of(head);
    if r % stride == 0 {
        kind_of_multiple(head, r / stride)
    } else {
        // r / stride + 1 public rows come before
        kind_of_other(head, r - (r / stride + 1))
    }
}
