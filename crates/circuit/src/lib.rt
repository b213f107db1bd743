// Circuits: their nets, and reading one from its text.
#![tactic(auto)]

pub mod circuit;
mod draft;
pub mod fault;
mod gather;
mod judge;
mod listing;
mod lookup;
pub mod names;
pub mod nets;
pub mod parts;
pub mod read;
mod record;
mod settle;
mod start;
#[cfg(test)]
mod tests;
