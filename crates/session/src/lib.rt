// What a script's commands do, and what they answer.
#![tactic(auto)]

mod answers;
mod performing;
mod runs;
mod sessions;

pub use answers::Answer;
pub use performing::perform;
