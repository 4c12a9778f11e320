ghost use Rattle.std.specs.Prelude.{◌≡◌};
ghost use Rattle.machine.specs.Widths.{bytes_of, aligned};

// How many bytes a load or a store moves.
#[derive(Clone, Copy)]
pub enum Width {
    Byte,
    Half,
    Word,
}

// What a store puts into memory, its bytes in little-endian order.
#[derive(Clone, Copy, Debug, PartialEq, Eq)]
pub enum Datum {
    U8(u8),
    U16(u16),
    U32(u32),
}

impl Width {
    pub fn bytes(self) -> u32
        ensures is { result ≡ bytes_of self }
    {
        match self {
            Width::Byte => 1,
            Width::Half => 2,
            Width::Word => 4,
        }
    }

    // Whether the address is a multiple of the width; each divisor a constant, so that no division is left.
    pub(crate) fn divides(self, address: u32) -> bool
        ensures { result ≡ aligned self address }
    {
        match self {
            Width::Byte => true,
            Width::Half => address % 2 == 0,
            Width::Word => address % 4 == 0,
        }
    }
}
