// What bytes may be put into, one part after the other.
ghost use Rattle.sinks.specs.Sinks.{Meaning, Puts};

// A sink takes no more.
#[derive(Clone, Copy, PartialEq, Eq, Debug)]
pub struct Refused;

pub trait Sink {
    ghost meaning: { Self → Meaning };

    fn put(&mut self, bytes: &[u8]) -> Result<(), Refused>
        ensures { Puts (meaning self.old) (meaning self.new) bytes.now result };
}
