// A trace, as it is shown to others.
ghost use Rattle.std.specs.Prelude.{◌≡◌, ◌≤◌, length};

use crate::goal::Goal;
use values::Three;

// It ends in the goal's last frame, and is to have the target on there. `values` has a value for each entry, in the order of
// the text: the free starts by net, then the inputs by frame and net. `U` is a dash: either bit will do.
#[derive(Clone, Copy, PartialEq, Eq, Debug)]
pub struct Trace<'a> {
    pub goal: Goal,
    pub values: &'a [Three],
}

impl Trace<'_> {
    ghost use Rattle.trace.specs.Traces.{dash_count};

    // How many values are dashes.
    pub fn dashes(self) -> usize
        ensures is { result ≡ dash_count self.entry.values.now }
        ensures few { result ≤ length self.entry.values.now }
    {
        self.values.iter().filter(|v| **v == Three::U).count()
    }
}
