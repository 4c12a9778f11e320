// How a caller lends buffers to a memory, and how to bring a memory of one's own.
#![tactic(auto)]

pub mod echo;
pub mod lender;
pub mod pages;
