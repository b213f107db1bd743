// What a replay tells.
ghost use Rattle.std.specs.Prelude.{◌≡◌, Some};

use std::fmt;
use values::Three;

// Whether the target is on in the last frame; unsure where that rests on a dash.
#[derive(Clone, Copy, PartialEq, Eq, Debug)]
pub enum Answer {
    On,
    Off,
    Unsure,
}

impl From<bool> for Answer {
    ghost use Rattle.replay.specs.Answers.{bit_answer};

    ghost from_gives = { λ bit r. r ≡ bit_answer bit };

    fn from(bit: bool) -> Answer {
        if bit { Answer::On } else { Answer::Off }
    }
}

impl From<Three> for Answer {
    ghost use Rattle.replay.specs.Answers.{three_answer};

    ghost from_gives = { λ value r. r ≡ three_answer value };

    fn from(value: Three) -> Answer {
        match value {
            Three::One => Answer::On,
            Three::Zero => Answer::Off,
            Three::U => Answer::Unsure,
        }
    }
}

impl fmt::Display for Answer {
    ghost use Rattle.replay.specs.Words.{word_of};

    ghost output = { λ answer. Some (word_of answer) };

    fn fmt<W: fmt::Write>(&self, f: &mut fmt::Formatter<W>) -> fmt::Result {
        match self {
            Answer::On => write!(f, "on"),
            Answer::Off => write!(f, "off"),
            Answer::Unsure => write!(f, "unsure"),
        }
    }
}

// What was read, and the answer.
#[derive(Clone, Copy, PartialEq, Eq, Debug)]
pub struct Report {
    pub nets: usize,
    pub frames: u32,
    pub dashes: usize,
    pub answer: Answer,
}
