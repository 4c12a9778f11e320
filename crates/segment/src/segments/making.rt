ghost use Rattle.std.specs.Prelude.{◌≡◌};
ghost use Rattle.segment.specs.Rows.{row, row_in, made as made_of};

use crate::segments::Segment;
use refusal::Refusal;

// A segment has 2^k bytes.
const LEAST_BITS: u32 = 10;

const MOST_BITS: u32 = 16;

// No segment ends past here.
const MOST_BYTES: u32 = 1048576;

impl Segment {
    // The segment of 2^k bytes from `base` in a memory of so many bytes.
    pub fn new(base: u32, k: u32, memory: u32) -> Result<Segment, Refusal>
        ensures is { row_in result ≡ made_of base k memory }
    {
        if k < LEAST_BITS || k > MOST_BITS {
            return Err(Refusal::SegmentBits);
        }
        let size = 1u32 << k;
        let limit = memory.min(MOST_BYTES);
        if base % size != 0 || u64::from(base) + u64::from(size) > u64::from(limit) {
            return Err(Refusal::SegmentPlace);
        }
        Ok(Segment { base, bits: k })
    }

    // The smallest one, at address 0: what a table holds where there is none.
    pub fn least() -> Segment
        ensures is { row result ≡ record { base = 0; bits = 10 } }
    {
        Segment {
            base: 0,
            bits: LEAST_BITS,
        }
    }
}
