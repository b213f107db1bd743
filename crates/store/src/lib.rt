// Lists whose room is taken when they are made.
#![tactic(auto)]

mod store;

pub use store::Store;

#[cfg(test)]
mod tests;
