ghost use Rattle.std.specs.Prelude.{◌+◌, ◌^◌, ◌≤◌};

use segment::Segment;
use yard_steps::State;

mod changes;

// A domain: its registers, pc and state, its window of 2^m bytes from `base`, its data segment.
#[derive(Clone, Copy)]
pub struct Domain {
    registers: [u32; 32],
    pc: u32,
    state: State,
    base: u32,
    m: u32,
    segment: Segment,
    ghost few: { m ≤ 14 },
    ghost counts: { base + 2 ^ m ≤ 65536 },
}
