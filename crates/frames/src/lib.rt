// The values of a circuit's nets in its frames, worked out once for every kind of values.
#![tactic(auto)]

mod changes;
mod hold;
mod place;
mod rules;
mod theorems;
mod work;

pub use changes::change;
pub use hold::Hold;
pub use rules::is_open;
pub use theorems::{bits_make_runs, filling_admitted, rules_determine};
pub use work::work_out;
