// What a survey is lent.
ghost use Rattle.std.specs.Prelude.{◌≡◌};
ghost use Rattle.sheet.specs.Outcomes.{shape_of};
ghost use Rattle.runs.specs.Survey.{buffers_fit, sizes};

use refusal::refused::Refused;
use sheet::entry::Entry;
use sheet::head::Head;
use sheet::head::calls::TABLE_SIZE;

// One answer a call, the sheet's two tables, the three results, two working buffers of M + 4n and M + n places, and the spares, of which
// a listed call of another than the stated length is handed a part.
#[derive(Drop)]
pub struct Lent<'a, F> {
    pub answers: &'a mut [Result<(), Refused>],
    pub entries: &'a mut [Entry<F>],
    pub values: &'a mut [F],
    pub extended: &'a mut [F],
    pub divided: &'a mut [F],
    pub published: &'a mut [F],
    pub work: &'a mut [F],
    pub scratch: &'a mut [F],
    pub spare_entries: &'a mut [Entry<F>],
    pub spare_values: &'a mut [F],
}

impl<F> Lent<'_, F> {
    // Whether all but the value table and the spares have the stated lengths.
    pub(crate) fn fits(&self, head: &Head, calls: usize) -> bool
        ensures { result ≡ buffers_fit (shape_of head.now) calls (sizes self.now) }
    {
        let n = head.n();
        let columns = head.columns();
        (self.answers.len() == calls && self.entries.len() == TABLE_SIZE)
            && ((self.extended.len() == columns
                && (self.divided.len() == n - 1 && self.published.len() == n))
                && (self.work.len() == columns + 4 * n && self.scratch.len() == columns + n))
    }
}
