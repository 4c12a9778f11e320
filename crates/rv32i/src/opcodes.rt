ghost use Rattle.std.specs.Prelude.{◌≡◌, ◌<◌, ok_or};
ghost use Rattle.rv32i.specs.Table.{major7, major_at};

use crate::causes::Cause;

// What the seven low bits of a word say: the group of its instruction, by the manual's name.
#[derive(Clone, Copy)]
pub(crate) enum Opcode {
    Lui,
    Auipc,
    Jal,
    Jalr,
    Branch,
    Load,
    Store,
    OpImm,
    Op,
    MiscMem,
    System,
}

impl Opcode {
    pub(crate) fn code(self) -> u32
        ensures is { result ≡ major7 self }
        ensures seven_bits { result < 128 }
    {
        match self {
            Opcode::Lui => 0x37,
            Opcode::Auipc => 0x17,
            Opcode::Jal => 0x6F,
            Opcode::Jalr => 0x67,
            Opcode::Branch => 0x63,
            Opcode::Load => 0x03,
            Opcode::Store => 0x23,
            Opcode::OpImm => 0x13,
            Opcode::Op => 0x33,
            Opcode::MiscMem => 0x0F,
            Opcode::System => 0x73,
        }
    }
}

impl TryFrom<u32> for Opcode {
    type Error = Cause;

    ghost use Rattle.rv32i.specs.declared.causes.Cause.{Cause};

    ghost try_from_gives = { λ code r. r ≡ ok_or (major_at code) Cause.Opcode };

    fn try_from(code: u32) -> Result<Self, Cause> {
        match code {
            0x37 => Ok(Opcode::Lui),
            0x17 => Ok(Opcode::Auipc),
            0x6F => Ok(Opcode::Jal),
            0x67 => Ok(Opcode::Jalr),
            0x63 => Ok(Opcode::Branch),
            0x03 => Ok(Opcode::Load),
            0x23 => Ok(Opcode::Store),
            0x13 => Ok(Opcode::OpImm),
            0x33 => Ok(Opcode::Op),
            0x0F => Ok(Opcode::MiscMem),
            0x73 => Ok(Opcode::System),
            _ => Err(Cause::Opcode),
        }
    }
}
