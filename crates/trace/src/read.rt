// Reading a trace.
ghost use Rattle.std.specs.Prelude.{◌≡◌};
ghost use Rattle.circuit.specs.Circuits.{nets_of, names_of};
ghost use Rattle.trace.specs.Laws.{Taken};
ghost use Rattle.trace.specs.Readings.{trace_read};
ghost use Rattle.trace.specs.Recordings.{held_trace};
ghost use Rattle.trace.specs.Outcomes.{ReadsAs};

use crate::entry::Entries;
use crate::fault::TraceFault;
use crate::reading::{first_line, read_lines};
use crate::recording::Recording;
use circuit::names::Names;

impl Recording {
    // Reads the text of a trace of the circuit, whose names stand in the text that it was read from. A refused reading
    // leaves no trace held.
    pub fn read(&mut self, names: &[u8], text: &[u8]) -> Result<(), TraceFault>
        ensures is { ReadsAs result (held_trace self.new) (trace_read (names_of names.now self.old.circuit) (nets_of self.old.circuit) text.now) }
        ensures taken { Taken result (names_of names.now self.old.circuit) (nets_of self.old.circuit) text.now (held_trace self.new) }
        ensures circuit { self.new.circuit ≡ self.old.circuit }
    {
        self.goal = None;
        self.values.clear();
        let names = Names::new(&self.circuit, names);
        let Some(first) = first_line(names, text) else {
            return Err(TraceFault::FirstLine);
        };
        let entries = Entries::new(&self.circuit, first.goal.last);
        read_lines(&mut self.values, names, entries, first.rest)?;
        self.goal = Some(first.goal);
        Ok(())
    }
}
