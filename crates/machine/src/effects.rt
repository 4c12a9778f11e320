use crate::stops::Stop;
use crate::widths::Datum;
use rv32i::LoadOp;

// What an instruction asks for. After `Set`, `Read`, `Write` and `Next` the pc goes on to the next word.
#[derive(Clone, Copy)]
pub enum Effect {
    // Register `rd` becomes `value`.
    Set { rd: u8, value: u32 },
    // Register `rd` becomes what `op` makes of the bytes at `address`, a multiple of its width.
    Read { op: LoadOp, rd: u8, address: u32 },
    // The bytes at `address`, a multiple of their number, become those of `datum`.
    Write { address: u32, datum: Datum },
    // Register `rd` becomes `link`, and the pc `target`, a multiple of 4.
    Link { rd: u8, link: u32, target: u32 },
    // The pc becomes `target`, a multiple of 4.
    Jump { target: u32 },
    Next,
    // ECALL.
    Call,
    Stop(Stop),
}
