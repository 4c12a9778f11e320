// The values that instructions compute.
ghost use Rattle.std.specs.Prelude.{◌≡◌};
ghost use Rattle.machine.specs.Arithmetic.{plus, sra, imm_value, shift_value, reg_value};

use rv32i::{ImmOp, RegOp, ShiftOp};

// A word and an immediate, modulo 2^32.
pub(crate) fn add(word: u32, imm: i32) -> u32
    ensures { result ≡ plus word imm }
{
    word.wrapping_add(imm.cast_unsigned())
}

fn shift_right_signed(a: u32, count: u32) -> u32
    ensures { result ≡ sra a count }
{
    (a.cast_signed() >> (count % 32)).cast_unsigned()
}

pub(crate) fn imm_value(op: ImmOp, a: u32, imm: i32) -> u32
    ensures { result ≡ imm_value op a imm }
{
    match op {
        ImmOp::Addi => add(a, imm),
        ImmOp::Slti => u32::from(a.cast_signed() < imm),
        ImmOp::Sltiu => u32::from(a < imm.cast_unsigned()),
        ImmOp::Xori => a ^ imm.cast_unsigned(),
        ImmOp::Ori => a | imm.cast_unsigned(),
        ImmOp::Andi => a & imm.cast_unsigned(),
    }
}

pub(crate) fn shift_value(op: ShiftOp, a: u32, shamt: u8) -> u32
    ensures { result ≡ shift_value op a shamt }
{
    match op {
        ShiftOp::Slli => a << (shamt % 32),
        ShiftOp::Srli => a >> (shamt % 32),
        ShiftOp::Srai => shift_right_signed(a, u32::from(shamt)),
    }
}

pub(crate) fn reg_value(op: RegOp, a: u32, b: u32) -> u32
    ensures { result ≡ reg_value op a b }
{
    match op {
        RegOp::Add => a.wrapping_add(b),
        RegOp::Sub => a.wrapping_sub(b),
        RegOp::Sll => a << (b % 32),
        RegOp::Slt => u32::from(a.cast_signed() < b.cast_signed()),
        RegOp::Sltu => u32::from(a < b),
        RegOp::Xor => a ^ b,
        RegOp::Srl => a >> (b % 32),
        RegOp::Sra => shift_right_signed(a, b),
        RegOp::Or => a | b,
        RegOp::And => a & b,
    }
}
