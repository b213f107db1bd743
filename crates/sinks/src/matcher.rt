// A sink that compares.
ghost use Rattle.sinks.specs.Sinks.{compares};

use crate::sink::{Refused, Sink};

// Compares with a text, from its start.
#[derive(Clone, Copy, PartialEq, Eq, Debug)]
pub struct Matcher<'a> {
    pub rest: &'a [u8],
}

impl Sink for Matcher<'_> {
    ghost meaning = { λ s. compares s.rest.now };

    fn put(&mut self, bytes: &[u8]) -> Result<(), Refused> {
        self.rest = self.rest.strip_prefix(bytes).ok_or(Refused)?;
        Ok(())
    }
}
