// Frames worked out in place.
ghost use Rattle.std.specs.Prelude.{◌≡◌, ◌+◌, ◌*◌, ◌<◌, ◌≤◌, true, false, length, ◌≢◌, slice_index_or, slice_set};
ghost use Rattle.circuit.specs.Circuits.{nets_of};
ghost use Rattle.frames.specs.Calls.{WorksOut};
ghost use Rattle.frames.specs.Reworked.{Reworked};

use crate::hold::Hold;
use crate::place::{Place, cell};
use crate::rules::Rules;
use circuit::circuit::Circuit;
use values::Kind;

// Works out as many whole frames as the cells have room for. Net `n` of frame `t` stands at place `t * N + n`, where `N` is
// the number of nets. What stands where a net is open is given, and stays unless the net is held; all else is worked out.
pub fn work_out<K: Kind>(circuit: &Circuit, hold: Option<Hold>, cells: &mut [K])
    ensures { WorksOut K.algebra (nets_of circuit.now) hold cells.old cells.new }
{
    let rules = Rules {
        nets: circuit.nets(),
        hold,
    };
    // by number, and not in chunks, since a frame is worked out from the one before it
    for t in 0..rules.frames_in(cells.len()) {
        rules.renew(cells, t, 0);
    }
}

// Puts a value at a place, and answers whether another one stood there.
pub(crate) fn replace<K: Kind>(cells: &mut [K], i: usize, v: K) -> bool
    requires { i < length cells.old }
    ensures is { cells.new ≡ slice_set cells.old i v }
    ensures same { result ≡ false → cells.new ≡ cells.old }
    ensures other { result ≡ true → slice_index_or cells.old i (K.algebra.only false) ≢ v }
{
    if cell(cells, i) == v {
        return false;
    }
    cells[i] = v;
    true
}

impl Rules<'_> {
    // Works out frame `t` from net `from` on, and answers whether any of its cells changed. `room` is asked by a clause, and not by
    // a type that holds the cells: a struct that held cells lent to be written would owe, after each call, that it holds the
    // same ones.
    pub(crate) fn renew<K: Kind>(&self, cells: &mut [K], t: usize, from: usize) -> bool
        requires start { from ≤ length self.now.nets.now }
        requires room { t * length self.now.nets.now + length self.now.nets.now ≤ length cells.old }
        ensures reworked { Reworked K.algebra self.now.nets.now self.now.hold (t * length self.now.nets.now + from) (t * length self.now.nets.now + length self.now.nets.now) cells.old cells.new }
        ensures same { result ≡ false → cells.new ≡ cells.old }
    {
        // a copy, so that the loop need not read the rules again after each cell that it writes
        let rules = *self;
        let mut changed = false;
        // by number, since a net's number says where its cell stands
        for n in from..rules.nets.len() {
            let place = Place { rules, cells, t, n };
            let v = place.value();
            if replace(cells, rules.place(t, n), v) {
                changed = true;
            }
        }
        changed
    }
}
