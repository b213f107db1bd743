// Sinks for bytes: one pass that writes a text serves to measure it, to fill a buffer with it, and to compare it with another.
#![tactic(auto)]

pub mod matcher;
pub mod page;
pub mod parts;
pub mod room;
pub mod sink;
