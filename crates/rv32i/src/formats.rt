// The word of each format, or `None` where a register or the immediate has no such form.
// The parameters are the manual's fields of each format: a struct of them would be taken apart where it is made.
// `funct3 < 8` stands in four contracts: a type for it would be made in six tables and read in four sums.
ghost use Rattle.std.specs.Prelude.{◌≡◌, ◌<◌};
ghost use Rattle.rv32i.specs.Encoded.{form_r, form_i, form_s, form_b, form_u, form_j};
ghost use Rattle.rv32i.specs.Table.{major7};

use crate::fields::field;
use crate::opcodes::Opcode;

pub(crate) fn form_r(
    opcode: Opcode,
    rd: u8,
    funct3: u32,
    rs1: u8,
    rs2: u8,
    funct7: u32,
) -> Option<u32>
    requires { (funct3 < 8) × (funct7 < 128) }
    ensures { result ≡ form_r (major7 opcode) rd funct3 rs1 rs2 funct7 }
{
    if rd > 31 || rs1 > 31 || rs2 > 31 {
        return None;
    }
    Some(
        (funct7 << 25)
            + (u32::from(rs2) << 20)
            + (u32::from(rs1) << 15)
            + (funct3 << 12)
            + (u32::from(rd) << 7)
            + opcode.code(),
    )
}

pub(crate) fn form_i(opcode: Opcode, rd: u8, funct3: u32, rs1: u8, imm: i32) -> Option<u32>
    requires { funct3 < 8 }
    ensures { result ≡ form_i (major7 opcode) rd funct3 rs1 imm }
{
    if rd > 31 || rs1 > 31 || imm < -2048 || imm > 2047 {
        return None;
    }
    let raw = imm.cast_unsigned() % 4096;
    Some(
        (raw << 20)
            + (u32::from(rs1) << 15)
            + (funct3 << 12)
            + (u32::from(rd) << 7)
            + opcode.code(),
    )
}

pub(crate) fn form_s(opcode: Opcode, funct3: u32, rs1: u8, rs2: u8, imm: i32) -> Option<u32>
    requires { funct3 < 8 }
    ensures { result ≡ form_s (major7 opcode) funct3 rs1 rs2 imm }
{
    if rs1 > 31 || rs2 > 31 || imm < -2048 || imm > 2047 {
        return None;
    }
    let raw = imm.cast_unsigned();
    Some(
        (field(raw, 11, 5) << 25)
            + (u32::from(rs2) << 20)
            + (u32::from(rs1) << 15)
            + (funct3 << 12)
            + (field(raw, 4, 0) << 7)
            + opcode.code(),
    )
}

pub(crate) fn form_b(opcode: Opcode, funct3: u32, rs1: u8, rs2: u8, imm: i32) -> Option<u32>
    requires { funct3 < 8 }
    ensures { result ≡ form_b (major7 opcode) funct3 rs1 rs2 imm }
{
    let raw = imm.cast_unsigned();
    if rs1 > 31 || rs2 > 31 || imm < -4096 || imm > 4095 || raw % 2 != 0 {
        return None;
    }
    Some(
        (field(raw, 12, 12) << 31)
            + (field(raw, 10, 5) << 25)
            + (u32::from(rs2) << 20)
            + (u32::from(rs1) << 15)
            + (funct3 << 12)
            + (field(raw, 4, 1) << 8)
            + (field(raw, 11, 11) << 7)
            + opcode.code(),
    )
}

pub(crate) fn form_u(opcode: Opcode, rd: u8, imm: i32) -> Option<u32>
    ensures { result ≡ form_u (major7 opcode) rd imm }
{
    let raw = imm.cast_unsigned();
    if rd > 31 || raw % 4096 != 0 {
        return None;
    }
    Some((field(raw, 31, 12) << 12) + (u32::from(rd) << 7) + opcode.code())
}

pub(crate) fn form_j(opcode: Opcode, rd: u8, imm: i32) -> Option<u32>
    ensures { result ≡ form_j (major7 opcode) rd imm }
{
    let raw = imm.cast_unsigned();
    if rd > 31 || imm < -1048576 || imm > 1048575 || raw % 2 != 0 {
        return None;
    }
    Some(
        (field(raw, 20, 20) << 31)
            + (field(raw, 10, 1) << 21)
            + (field(raw, 11, 11) << 20)
            + (field(raw, 19, 12) << 12)
            + (u32::from(rd) << 7)
            + opcode.code(),
    )
}
