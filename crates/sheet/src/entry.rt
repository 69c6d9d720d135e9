// One record of the entry table.
ghost use Rattle.std.specs.Prelude.{◌≡◌};

use field::field::Field;

// A coefficient at a position: matrix A, B or C (0, 1 or 2), row and wire. The numbers may lie outside a sheet; its calls refuse such.
#[derive(Clone, Copy)]
pub struct Entry<F> {
    pub matrix: u32,
    pub row: u32,
    pub wire: u32,
    pub coefficient: F,
}

impl<F: Field> Entry<F> {
    // A record for a table that is not filled yet.
    pub fn blank() -> Entry<F>
        ensures { (result.matrix ≡ 0) × (result.row ≡ 0) × (result.wire ≡ 0) × (result.coefficient ≡ F.ops.zero) }
    {
        Entry {
            matrix: 0,
            row: 0,
            wire: 0,
            coefficient: F::zero(),
        }
    }
}
