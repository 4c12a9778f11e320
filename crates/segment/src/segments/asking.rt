ghost use Rattle.std.specs.Prelude.{◌≡◌, ◌+◌, ◌-◌, ◌^◌, ◌≤◌, true};
ghost use Rattle.segment.specs.Rows.{row};
ghost use Rattle.segment.specs.Guards.{inside, apart as is_apart, Confines, Guards, Whole};

use crate::segments::Segment;

// So many bytes lie between two segments.
const GUARD: u32 = 2048;

impl Segment {
    // The number of its bytes.
    pub fn size(self) -> u32
        ensures is { result ≡ 2 ^ (row self).bits }
        ensures few { result ≤ 65536 }
    {
        1u32 << self.bits
    }

    // The address past its last byte.
    fn end(self) -> u32
        ensures is { result ≡ (row self).base + 2 ^ (row self).bits }
        ensures few { result ≤ 1048576 }
    {
        self.base + self.size()
    }

    // What a mask word takes of a number before the base word brings it into the segment.
    #[tactic(auto, using(crate::proofs::Blocks::masked_data))]
    pub fn mask(self) -> u32
        ensures is { result ≡ 2 ^ (row self).bits - 1 }
        ensures confines { Confines (row self) result }
    {
        self.size() - 1
    }

    // Whether the byte at an address is one of its own.
    pub fn holds(self, address: u32) -> bool
        ensures is { result ≡ inside (row self) address }
        ensures whole { result ≡ true → Whole (row self) address }
    {
        self.covers(address)
    }

    // Apart from `holds`, so that a wrong test is refused in the code, before the proof of the law.
    fn covers(self, address: u32) -> bool
        ensures { result ≡ inside (row self) address }
    {
        self.base <= address && address < self.end()
    }

    // Whether the guard zone lies between it and another.
    pub fn apart(self, other: Segment) -> bool
        ensures is { result ≡ is_apart (row self) (row other) }
        ensures guards { result ≡ true → Guards (row self) (row other) }
    {
        self.end() + GUARD <= other.base || other.end() + GUARD <= self.base
    }
}
