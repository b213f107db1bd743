// The replay: a trace played on its circuit, with one net held or none. No searcher stands below it.
#![tactic(auto)]

pub mod fault;
mod playing;
pub mod record;
pub mod replayer;
mod replays;
pub mod report;
