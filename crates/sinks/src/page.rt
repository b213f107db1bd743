// A sink that fills a lent buffer.
ghost use Rattle.sinks.specs.Sinks.{writes};

use crate::sink::{Refused, Sink};

// Writes into a buffer, from its start. A slice of what is left forgets what stands before it, and std's cursor writes half
// a part where there is no room for all and does not say that it lends the same buffer on: so the buffer and a place.
#[derive(Drop)]
pub struct Page<'a> {
    pub out: &'a mut [u8],
    pub place: usize,
}

impl Sink for Page<'_> {
    ghost meaning = { λ s. writes s.place s.out.now s.out.ghost_name };

    // It tests the end itself: of what `get_mut` lends, the library does not say how it is seen in the buffer afterwards.
    fn put(&mut self, bytes: &[u8]) -> Result<(), Refused> {
        let end = self.place.checked_add(bytes.len()).ok_or(Refused)?;
        if end > self.out.len() {
            return Err(Refused);
        }
        self.out[self.place..end].copy_from_slice(bytes);
        self.place = end;
        Ok(())
    }
}
