// Traces: what a circuit starts with and is given, frame by frame; kept, written and read back.
#![tactic(auto)]

mod aim;
mod calls;
mod decimal;
mod entries;
mod entry;
pub mod fault;
pub mod goal;
mod keep;
mod laying;
mod places;
mod read;
mod reading;
pub mod recording;
mod script;
pub mod view;
mod write;
mod writing;
