// What loads and stores move.
ghost use Rattle.std.specs.Prelude.{◌≡◌};
ghost use Rattle.machine.specs.Accesses.{load_width, store_width, extended, datum_of};

use crate::widths::{Datum, Width};
use rv32i::{LoadOp, StoreOp};

pub fn load_width(op: LoadOp) -> Width
    ensures is { result ≡ load_width op }
{
    match op {
        LoadOp::Lb | LoadOp::Lbu => Width::Byte,
        LoadOp::Lh | LoadOp::Lhu => Width::Half,
        LoadOp::Lw => Width::Word,
    }
}

pub(crate) fn store_width(op: StoreOp) -> Width
    ensures { result ≡ store_width op }
{
    match op {
        StoreOp::Sb => Width::Byte,
        StoreOp::Sh => Width::Half,
        StoreOp::Sw => Width::Word,
    }
}

// The word that a load makes of the bytes it read, `raw` in little-endian order; bytes past its width count for nothing.
pub fn extend(op: LoadOp, raw: u32) -> u32
    ensures is { result ≡ extended op raw }
{
    match op {
        LoadOp::Lb => ((raw << 24).cast_signed() >> 24).cast_unsigned(),
        LoadOp::Lh => ((raw << 16).cast_signed() >> 16).cast_unsigned(),
        LoadOp::Lw => raw,
        LoadOp::Lbu => raw % 0x100,
        LoadOp::Lhu => raw % 0x1_0000,
    }
}

// What a store puts into memory: the low bytes of the word, as many as its width has.
pub(crate) fn datum(op: StoreOp, word: u32) -> Datum
    ensures { result ≡ datum_of op word }
{
    match op {
        StoreOp::Sb => Datum::U8((word % 0x100) as u8),
        StoreOp::Sh => Datum::U16((word % 0x1_0000) as u16),
        StoreOp::Sw => Datum::U32(word),
    }
}
