// A change of one place of frames that are worked out.
ghost use Rattle.std.specs.Prelude.{◌≡◌, ℕ, ◌+◌, ◌*◌, ◌≤◌, false, length, slice_index_or};
ghost use Rattle.circuit.specs.Circuits.{nets_of};
ghost use Rattle.frames.specs.Calls.{Changes};
ghost use Rattle.frames.specs.Reworked.{Reworked, Steady};

use crate::rules::Rules;
use crate::work::replace;
use circuit::circuit::Circuit;
use circuit::nets::{Frame, Net};
use values::Kind;

// Puts a value at one place of frames that are worked out with no net held, and works out again what it can change. What is
// put where the net is not open does not count.
pub fn change<K: Kind>(circuit: &Circuit, cells: &mut [K], frame: Frame, net: Net, value: K)
    ensures { Changes K.algebra (nets_of circuit.now) frame.0 net.0 value cells.old cells.new }
{
    let rules = Rules {
        nets: circuit.nets(),
        hold: None,
    };
    let n = usize::from(net);
    let t = usize::from(frame);
    let frames = rules.frames_in(cells.len());
    if n >= rules.nets.len() || t >= frames {
        return;
    }
    if replace(cells, rules.place(t, n), value) {
        rules.renew(cells, t, n);
        rules.settle(cells, t + 1, frames);
    }
}

impl Rules<'_> {
    // Works out again frame after frame, up to the first that comes out as it was.
    fn settle<K: Kind>(&self, cells: &mut [K], from: usize, frames: usize)
        requires start { from ≤ frames }
        requires room { frames * length self.now.nets.now ≤ length cells.old }
        ensures reworked { Steady K.algebra self.now.nets.now self.now.hold (from + 1) frames cells.old → Reworked K.algebra self.now.nets.now self.now.hold (from * length self.now.nets.now) (frames * length self.now.nets.now) cells.old cells.new }
        ensures behind { (i : ℕ) → frames * length self.now.nets.now ≤ i → slice_index_or cells.new i (K.algebra.only false) ≡ slice_index_or cells.old i (K.algebra.only false) }
    {
        // not `all`: tried, and the proof does not learn what its closure writes into the cells
        for s in from..frames {
            if !self.renew(cells, s, 0) {
                return;
            }
        }
    }
}
