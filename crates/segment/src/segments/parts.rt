ghost use Rattle.std.specs.Prelude.{◌≡◌};
ghost use Rattle.segment.specs.Rows.{row};
ghost use Rattle.segment.specs.Guards.{Sound};

use crate::segments::Segment;

impl Segment {
    pub fn base(self) -> u32
        ensures is { result ≡ (row self).base }
        ensures sound { Sound (row self) }
    {
        self.base
    }

    pub fn bits(self) -> u32
        ensures is { result ≡ (row self).bits }
        ensures sound { Sound (row self) }
    {
        self.bits
    }
}
