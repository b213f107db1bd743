// Why a circuit text is refused.
ghost use Rattle.std.specs.Prelude.{◌≡◌, ◌<◌, length};
ghost use Rattle.circuit.specs.Faults.{number_of, fault};
ghost use Rattle.circuit.specs.Sentences.{sentence_of};

use std::error::Error;
use std::fmt;

// The nine reasons, in the order in which they are judged, each with the number under which it is known.
#[derive(Clone, Copy, PartialEq, Eq, Debug)]
pub enum Refusal {
    TextTooLong = 1,
    TooManyLines = 2,
    LineOpen = 3,
    BadRecord = 4,
    BadName = 5,
    NameTaken = 6,
    OperandUnknown = 7,
    BadStart = 8,
    NextUnknown = 9,
}

impl Refusal {
    // The fault of that reason at a line.
    pub(crate) fn at(self, line: usize) -> ReadFault
        ensures { result ≡ fault self line }
    {
        ReadFault {
            refusal: self,
            line,
        }
    }

    // What is wrong, and what to do about it.
    fn sentence(self) -> &'static str
        ensures is { result.now ≡ sentence_of self }
        ensures words { 0 < length result.now }
    {
        match self {
            Refusal::TextTooLong =>
                "the circuit text is longer than 16384 bytes, and no circuit of 256 lines is: look for stray bytes",
            Refusal::TooManyLines =>
                "the circuit has more than 256 lines: it is too large to be played",
            Refusal::LineOpen =>
                "the last line of the circuit has no line feed: end the text with one",
            Refusal::BadRecord =>
                "a circuit line has an unknown letter or a wrong number of fields: write I, L, A, X or N, and one tab between fields",
            Refusal::BadName =>
                "a name in the circuit is not 1 to 16 of a-z, 0-9 and underscore: rename the net",
            Refusal::NameTaken =>
                "a circuit line takes the name of an earlier line: give each net its own name",
            Refusal::OperandUnknown =>
                "a gate of the circuit names an operand that no earlier line has: put that line first",
            Refusal::BadStart =>
                "a latch of the circuit starts with something other than 0, 1 or -: write one of these",
            Refusal::NextUnknown =>
                "a latch of the circuit takes over a net that no line names: add that net or correct the name",
        }
    }
}

// A reason, and the line at fault, counted from 1; 0 where it is no line's fault, and not `None`, since the line is printed.
#[derive(Clone, Copy, PartialEq, Eq, Debug)]
pub struct ReadFault {
    pub refusal: Refusal,
    pub line: usize,
}

impl ReadFault {
    // The number under which the refusal is known; docs/REFUSALS.md lists it.
    pub fn number(self) -> u8
        ensures { result ≡ number_of self.refusal }
    {
        self.refusal as u8
    }

    // What is wrong, and what to do about it.
    pub fn sentence(self) -> &'static str
        ensures is { result.now ≡ sentence_of self.refusal }
        ensures words { 0 < length result.now }
    {
        self.refusal.sentence()
    }
}

// The sentence for a reader, without the line.
impl fmt::Display for ReadFault {
    ghost use Rattle.std.specs.Prelude.{Some};

    ghost output = { λ fault. Some (sentence_of fault.refusal) };

    fn fmt<W: fmt::Write>(&self, f: &mut fmt::Formatter<W>) -> fmt::Result {
        f.write_str(self.sentence())
    }
}

impl Error for ReadFault {}
