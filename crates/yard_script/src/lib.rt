// The script language: a command a line. It stands beside `script`, whose commands stay those that its program answers. What reads
// words and numbers is in both: in a crate below them each method of `Operands` would be public, which is no plainer.
#![tactic(auto)]

mod code;
mod commands;
mod faults;
mod reading;

pub use code::words;
pub use commands::Command;
pub use faults::{Fault, Problem};
pub use reading::{Line, read};
