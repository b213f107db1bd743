// Texts: classes of bytes, names, and a reader that yields the parts of a lent text.
#![tactic(auto)]

pub mod class;
pub mod cut;
pub mod name;
pub mod part;
pub mod reader;
pub mod span;
