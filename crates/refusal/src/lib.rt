// Every way in which a call is turned down, and the numbers that tell it.
#![tactic(auto)]

mod printing;
mod refusals;
mod rules;
mod values;

pub use refusals::Refusal;
pub use rules::Rule;
pub use values::Values;
