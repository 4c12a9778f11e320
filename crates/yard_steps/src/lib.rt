// One step of a yard, as a plain model, and what holds of it: the fence. Its types are not those of `steps`: each crate's theorems
// stand on a `State::after` of its own, `Display` of a report has to stand in the report's crate, and here a domain is a `usize`.
#![tactic(auto)]

mod printing;
mod reports;
mod states;

pub use reports::{Ending, Reason, Report};
pub use states::{Event, State};
