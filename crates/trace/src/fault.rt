// Why a trace is not written or not read.
ghost use Rattle.std.specs.Prelude.{◌≡◌, ◌<◌, length};
ghost use Rattle.trace.specs.Faults.{trace_number, trace_line, write_number, write_line};
ghost use Rattle.trace.specs.Sentences.{trace_sentence};
ghost use Rattle.trace.specs.declared.fault.WriteFault.TheVariants.{Circuit, Short};

use circuit::fault::ReadFault;
use sinks::sink::Refused;
use std::error::Error;
use std::fmt;

// Why a trace is not written: the circuit text is refused, it lacks a net that the trace names, no trace is held, or the
// buffer is too short.
#[derive(Clone, Copy, PartialEq, Eq, Debug)]
pub enum WriteFault {
    Circuit(ReadFault),
    NoNet,
    NoTrace,
    Short,
}

impl From<ReadFault> for WriteFault {
    ghost from_gives = { λ f r. r ≡ Circuit f };

    fn from(fault: ReadFault) -> WriteFault {
        WriteFault::Circuit(fault)
    }
}

impl From<Refused> for WriteFault {
    ghost from_gives = { λ _ r. r ≡ Short };

    fn from(_refused: Refused) -> WriteFault {
        WriteFault::Short
    }
}

impl WriteFault {
    // The number under which the refusal is known; docs/REFUSALS.md lists it.
    pub fn number(self) -> u8
        ensures { result ≡ write_number self }
    {
        match self {
            WriteFault::Circuit(fault) => fault.number(),
            WriteFault::NoNet => 11,
            WriteFault::NoTrace => 25,
            WriteFault::Short => 26,
        }
    }

    // The line at fault; 0, and not none, where it is no line's fault, since the line is printed.
    pub fn line(self) -> usize
        ensures { result ≡ write_line self }
    {
        match self {
            WriteFault::Circuit(fault) => fault.line,
            WriteFault::NoNet | WriteFault::NoTrace | WriteFault::Short => 0,
        }
    }
}

// Why a text is not a trace of the circuit: its first line, or the later line of that number.
#[derive(Clone, Copy, PartialEq, Eq, Debug)]
pub enum TraceFault {
    FirstLine,
    LaterLine(usize),
}

impl TraceFault {
    // The number under which the refusal is known; docs/REFUSALS.md lists it.
    pub fn number(self) -> u8
        ensures { result ≡ trace_number self }
    {
        match self {
            TraceFault::FirstLine => 27,
            TraceFault::LaterLine(_) => 28,
        }
    }

    // The line at fault.
    pub fn line(self) -> usize
        ensures { result ≡ trace_line self }
    {
        match self {
            TraceFault::FirstLine => 1,
            TraceFault::LaterLine(line) => line,
        }
    }

    // What is wrong, and what to do about it.
    pub fn sentence(self) -> &'static str
        ensures is { result.now ≡ trace_sentence self }
        ensures words { 0 < length result.now }
    {
        match self {
            TraceFault::FirstLine => {
                "the first line of the trace is not run, a length of 0 to 63 and a net of the circuit, with tabs"
            }
            TraceFault::LaterLine(_) => {
                "a later line of the trace is not the one that this circuit asks for there: see which start or input comes next"
            }
        }
    }
}

impl fmt::Display for TraceFault {
    ghost use Rattle.std.specs.Prelude.{Some};

    ghost output = { λ fault. Some (trace_sentence fault) };

    fn fmt<W: fmt::Write>(&self, f: &mut fmt::Formatter<W>) -> fmt::Result {
        f.write_str(self.sentence())
    }
}

impl Error for TraceFault {}
