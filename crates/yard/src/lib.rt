// A yard: up to eight domains over one code store and one memory.
#![tactic(auto)]

mod accesses;
mod codes;
mod domains;
mod entries;
mod inners;
mod pendings;
mod slots;
mod yards;

pub use pendings::{Outcome, Pending};
pub use yards::Yard;
