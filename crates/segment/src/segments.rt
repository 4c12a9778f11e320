ghost use Rattle.std.specs.Prelude.{◌≡◌, ◌+◌, ◌%◌, ◌^◌, ◌≤◌};

mod asking;
mod making;
mod parts;

// 2^bits bytes of memory from `base`, a multiple of that size.
#[derive(Clone, Copy)]
pub struct Segment {
    base: u32,
    bits: u32,
    ghost large: { 10 ≤ bits },
    ghost small: { bits ≤ 16 },
    ghost aligned: { base % 2 ^ bits ≡ 0 },
    ghost fits: { base + 2 ^ bits ≤ 1048576 },
}
