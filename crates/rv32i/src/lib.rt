// RV32I 2.1: instructions, the words that hold them, and their text.
#![tactic(auto)]

mod causes;
mod decoding;
mod encoding;
mod fields;
mod formats;
mod instructions;
mod opcodes;
mod operations;
mod text;

pub use causes::Cause;
pub use decoding::decode;
pub use encoding::encode;
pub use instructions::Instruction;
pub use operations::{BranchOp, ImmOp, LoadOp, RegOp, ShiftOp, StoreOp};
pub use text::UnknownMnemonic;
