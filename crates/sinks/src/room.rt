// A sink that only counts.
ghost use Rattle.sinks.specs.Sinks.{counts};

use crate::sink::{Refused, Sink};

// Counts down the room that is left.
#[derive(Clone, Copy, PartialEq, Eq, Debug)]
pub struct Room {
    pub left: usize,
}

impl Sink for Room {
    ghost meaning = { λ s. counts s.left };

    fn put(&mut self, bytes: &[u8]) -> Result<(), Refused> {
        self.left = self.left.checked_sub(bytes.len()).ok_or(Refused)?;
        Ok(())
    }
}
