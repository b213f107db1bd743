// A recording made, and what it holds.
ghost use Rattle.std.specs.Prelude.{◌≡◌, IfOk, None};
ghost use Rattle.std.specs.Option.{option_map};
ghost use Rattle.circuit.specs.Accepts.{Reads};
ghost use Rattle.trace.specs.Recordings.{held_trace, Fresh};
ghost use Rattle.trace.specs.Traces.{told};

use crate::recording::Recording;
use crate::view::Trace;
use circuit::circuit::Circuit;
use circuit::fault::ReadFault;
use std::alloc::{AllocError, Global};
use store::Store;

impl Recording {
    // No trace is held at first. There is room for any trace of any circuit.
    pub fn new(heap: Global, circuit: Circuit) -> Result<Recording, AllocError>
        ensures { IfOk result (Fresh circuit) }
    {
        let values = Store::new(heap)?;
        let cells = Store::new(heap)?;
        Ok(Recording {
            circuit,
            goal: None,
            values,
            cells,
        })
    }

    pub fn circuit(&self) -> &Circuit
        ensures { result.now ≡ self.now.circuit }
    {
        &self.circuit
    }

    // The trace that is held.
    pub fn trace(&self) -> Option<Trace<'_>>
        ensures { option_map told result ≡ held_trace self.now }
    {
        let goal = self.goal?;
        Some(Trace {
            goal,
            values: self.values.as_slice(),
        })
    }

    // Holds no trace any more.
    pub fn forget(&mut self)
        ensures circuit { self.new.circuit ≡ self.old.circuit }
        ensures trace { held_trace self.new ≡ None }
    {
        self.goal = None;
    }

    // Reads another circuit, and holds no trace any more.
    pub fn read_circuit(&mut self, text: &[u8]) -> Result<(), ReadFault>
        ensures circuit { Reads result text.now self.new.circuit }
        ensures trace { held_trace self.new ≡ None }
    {
        self.forget();
        self.circuit.read(text)
    }
}
