// Windows of a code store, and the rules that make one safe to run.
#![tactic(auto)]

mod aspects;
mod checking;
mod pointers;
mod rules;
mod sites;
mod windows;

pub use checking::check;
pub use pointers::Pointer;
pub use windows::{STORE_WORDS, bits_fit, code_mask, window};
