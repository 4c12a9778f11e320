// Data segments: where a domain may write, and the guard zone that keeps one apart from another.
#![tactic(auto)]

mod segments;

pub use segments::Segment;
