// Loads and stores over any memory.
ghost use Rattle.std.specs.Prelude.{◌≡◌};
ghost use Rattle.yard_steps.specs.Steps.{loaded, put_datum};

use machine::{Datum, Width, extend, load_width};
use memory::Memory;
use rv32i::LoadOp;

// The word that a load gives; the bytes are there, since the address is mapped.
pub fn load<M: Memory>(memory: &M, op: LoadOp, address: u32) -> u32
    ensures { result ≡ loaded op (M.Memory.bytes memory.now) address }
{
    let raw = match load_width(op) {
        Width::Byte => u32::from(memory.read(address).unwrap_or(0)),
        Width::Half => u32::from(memory.read_half(address).unwrap_or(0)),
        Width::Word => memory.read_word(address).unwrap_or(0),
    };
    extend(op, raw)
}

pub fn store<M: Memory>(memory: &mut M, address: u32, datum: Datum)
    ensures bytes { M.Memory.bytes memory.new ≡ put_datum (M.Memory.bytes memory.old) address datum }
    ensures lent { M.Memory.lent memory.new ≡ M.Memory.lent memory.old }
{
    match datum {
        Datum::U8(byte) => memory.write(address, byte),
        Datum::U16(half) => memory.write_half(address, half),
        Datum::U32(word) => memory.write_word(address, word),
    };
}
