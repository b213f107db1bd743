// Writing a trace.
ghost use Rattle.std.specs.Prelude.{◌≡◌, ◌<◌, ◌≤◌, length};
ghost use Rattle.circuit.specs.Accepts.{LeftBy};
ghost use Rattle.circuit.specs.Circuits.{nets_of};
ghost use Rattle.circuit.specs.Named.{names_in};
ghost use Rattle.circuit.specs.Reading.{reading};
ghost use Rattle.sinks.specs.Sinks.{filled};
ghost use Rattle.trace.specs.Laws.{Back};
ghost use Rattle.trace.specs.Recordings.{held_trace};
ghost use Rattle.trace.specs.Scripts.{script_text};
ghost use Rattle.trace.specs.Traces.{told};
ghost use Rattle.trace.specs.Writing.{has_name, covered, Measured, writing, writes, held_text, written};

use crate::fault::WriteFault;
use crate::recording::Recording;
use crate::script::Script;
use circuit::circuit::Circuit;
use circuit::names::Names;
use circuit::nets::{Frame, NetKind};
use frames::is_open;
use sinks::page::Page;
use sinks::room::Room;
use sinks::sink::Refused;

fn has_name(count: usize, i: usize, kind: NetKind) -> bool
    ensures { result ≡ has_name count i kind }
{
    !is_open(kind, Frame(0)) || i < count
}

// Whether each net that a trace names is among the first `count`.
fn is_covered(count: usize, nets: &[NetKind]) -> bool
    ensures { result ≡ covered count 0 nets.now }
{
    // Not `all`: tried, and the proof does not learn which numbers `enumerate` gave its closure.
    for (i, kind) in nets.iter().enumerate() {
        if !has_name(count, i, *kind) {
            return false;
        }
    }
    true
}

impl Script<'_, '_, '_> {
    // The length of the text, if there is room for it.
    fn measure(self, room: usize) -> Result<usize, Refused>
        ensures { Measured (length (script_text self.entry)) room result }
    {
        let mut sink = Room { left: room };
        self.put(&mut sink)?;
        Ok(room - sink.left)
    }

    fn fill(self, out: &mut [u8])
        requires { length (script_text self) ≤ length out.old }
        ensures { out.new ≡ filled (script_text self.entry) out.old }
    {
        let mut page = Page { out, place: 0 };
        self.put(&mut page).unwrap();
    }

    fn write(self, out: &mut [u8]) -> Result<usize, WriteFault>
        ensures answer { result ≡ writing (names_in self.entry.names) (nets_of self.entry.circuit.now) (told self.entry.trace) (length out.old) }
        ensures out { out.new ≡ written (script_text self.entry) out.old result }
    {
        let count = self.names.len();
        if usize::from(self.trace.goal.target) >= count || !is_covered(count, self.circuit.nets()) {
            return Err(WriteFault::NoNet);
        }
        let size = self.measure(out.len())?;
        self.fill(out);
        Ok(size)
    }
}

impl Recording {
    // Writes the trace that is held, with the names that a circuit text has for its nets. That text is read first, into
    // the circuit that is lent for it.
    pub fn write(
        &self,
        spare: &mut Circuit,
        text: &[u8],
        out: &mut [u8],
    ) -> Result<usize, WriteFault>
        ensures answer { result ≡ writes (reading text.now) (nets_of self.now.circuit) (held_trace self.now) (length out.old) }
        ensures out { out.new ≡ written (held_text (reading text.now) (nets_of self.now.circuit) (held_trace self.now)) out.old result }
        ensures back { Back result (reading text.now) (nets_of self.now.circuit) (held_trace self.now) out.new }
        ensures spare { LeftBy (reading text.now) text.now spare.new }
    {
        spare.read(text)?;
        let trace = self.trace().ok_or(WriteFault::NoTrace)?;
        let script = Script {
            names: Names::new(spare, text),
            circuit: &self.circuit,
            trace,
        };
        script.write(out)
    }
}
