// A trace laid out by frame and net.
ghost use Rattle.std.specs.Prelude.{◌≡◌, slice_set};
ghost use Rattle.circuit.specs.Circuits.{nets_of};
ghost use Rattle.trace.specs.Laid.{held_laid};
ghost use Rattle.trace.specs.Recordings.{held_trace};

use crate::entry::Entries;
use crate::recording::Recording;
use values::Three;

// Puts a value at a place, if there is one. Not by `get_mut`: of what it lends, the library does not say how it is seen in the
// slice afterwards.
fn put_cell(cells: &mut [Three], i: usize, value: Three)
    ensures { cells.new ≡ slice_set cells.old i value }
{
    if i < cells.len() {
        cells[i] = value;
    }
}

impl Recording {
    // Puts the values of the trace that is held where they stand among cells by frame and net; the others stay.
    pub fn lay_out(&self, cells: &mut [Three])
        ensures { cells.new ≡ held_laid (nets_of self.now.circuit) (held_trace self.now) cells.old }
    {
        let Some(trace) = self.trace() else {
            return;
        };
        let entries = Entries::new(&self.circuit, trace.goal.last);
        // the values first: where they end, no further entry is looked for
        for (value, entry) in trace.values.iter().zip(entries) {
            put_cell(cells, entry.place(&self.circuit), *value);
        }
    }
}
