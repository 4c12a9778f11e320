// One step of a yard, as a plain model, and what holds of it: the fence.
#![tactic(auto)]

mod reports;
mod states;

pub use reports::{Reason, Report};
pub use states::{Event, State};
