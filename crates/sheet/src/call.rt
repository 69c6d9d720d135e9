// The calls of a sheet as data, so that a list of them can be made one after another and told in a model.

// A call by its arguments. A table or buffer that it is handed is told by its length: of the stated length it is the sheet's own,
// of another it is another.
#[derive(Clone, Copy)]
pub enum Call<F> {
    Enter {
        entries: usize,
        matrix: u32,
        row: u32,
        wire: u32,
        coefficient: F,
    },
    Assign {
        values: usize,
        wire: u32,
        value: F,
    },
    Extend {
        entries: usize,
        values: usize,
        out: usize,
    },
    Quotient {
        entries: usize,
        values: usize,
        out: usize,
        work: usize,
    },
    Public {
        values: usize,
        out: usize,
    },
}
