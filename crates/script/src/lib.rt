// The script language: a command a line, and what each command answers.
#![tactic(auto)]

mod code;
mod commands;
mod faults;
mod reading;
mod sessions;

pub use code::words;
pub use commands::{Answer, Command};
pub use faults::{Fault, Problem};
pub use reading::{Line, read};
pub use sessions::Session;
