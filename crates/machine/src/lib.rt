// What each instruction does: registers and pc in, its effect out.
#![tactic(auto)]

mod accesses;
mod arithmetic;
mod branches;
mod effects;
mod execution;
mod registers;
mod stops;
mod widths;

pub use accesses::{extend, load_width};
pub use effects::Effect;
pub use execution::{execute, next_pc};
pub use registers::{register, set_register};
pub use stops::Stop;
pub use widths::{Datum, Width};
