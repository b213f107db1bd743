// A net that is held at a bit.
use circuit::nets::Net;

// A net that has one bit in every frame, whatever it is worked out from.
#[derive(Clone, Copy, PartialEq, Eq, Debug)]
pub struct Hold {
    pub net: Net,
    pub bit: bool,
}
