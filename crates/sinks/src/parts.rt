// Several parts put one after the other.
ghost use Rattle.sinks.specs.Sinks.{Puts, concat, texts};

use crate::sink::{Refused, Sink};

// Puts all the parts, in their order.
pub fn put_all<S: Sink>(sink: &mut S, parts: &[&[u8]]) -> Result<(), Refused>
    ensures { Puts (S.meaning sink.old) (S.meaning sink.new) (concat (texts parts.now)) result }
{
    for part in parts {
        sink.put(part)?;
    }
    Ok(())
}
