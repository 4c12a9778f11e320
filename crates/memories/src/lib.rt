// The memories that are built: one lent buffer, four lent lanes, and a choice of the two.
#![tactic(auto)]

pub mod any;
pub mod flat;
pub mod lanes;

// No memory counts more bytes than this.
pub const LIMIT: usize = 1_048_576;
