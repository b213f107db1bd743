// Kinds of values that a net can have in a frame: bits, and three-way values.
#![tactic(auto)]

mod bits;
mod bytes;
mod kind;
mod three;

pub use bytes::NoValue;
pub use kind::Kind;
pub use three::Three;
