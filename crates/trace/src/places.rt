// Where entries and goals stand among cells by frame and net.
ghost use Rattle.std.specs.Prelude.{◌≡◌, ◌+◌, ◌*◌, length};
ghost use Rattle.circuit.specs.Circuits.{nets_of};
ghost use Rattle.trace.specs.Dashes.{frame_of, place_of, goal_place};

use crate::entry::Entry;
use crate::goal::Goal;
use circuit::circuit::Circuit;
use circuit::nets::{Frame, Net};

fn place_in(circuit: &Circuit, frame: Frame, net: Net) -> usize
    ensures { result ≡ frame.0 * length (nets_of circuit.now) + net.0 }
{
    usize::from(frame) * circuit.len() + usize::from(net)
}

impl Entry {
    // The frame that it is in: a start is in frame 0.
    pub(crate) fn in_frame(self) -> Frame
        ensures { result.0 ≡ frame_of self }
    {
        self.frame.unwrap_or(Frame(0))
    }

    pub(crate) fn place(self, circuit: &Circuit) -> usize
        ensures { result ≡ place_of (length (nets_of circuit.now)) self }
    {
        place_in(circuit, self.in_frame(), self.net)
    }
}

impl Goal {
    // The place of the target in the last frame.
    pub fn place(self, circuit: &Circuit) -> usize
        ensures { result ≡ goal_place (length (nets_of circuit.now)) self }
    {
        place_in(circuit, self.last, self.target)
    }
}
