ghost use Rattle.std.specs.Prelude.{◌≡◌};
ghost use Rattle.rv32i.specs.Encoded.{encoded};
ghost use Rattle.rv32i.specs.Laws.{DecodesAgain, NoWordExactly};

use crate::formats::{form_b, form_i, form_j, form_r, form_s, form_u};
use crate::instructions::Instruction;
use crate::opcodes::Opcode;

// The word that holds an instruction, or `None` where a register or the immediate has no such form.
pub fn encode(instruction: Instruction) -> Option<u32>
    ensures is { result ≡ encoded instruction }
    ensures decodes { DecodesAgain instruction result }
    ensures none { NoWordExactly instruction result }
{
    word_of(instruction)
}

// Apart from `encode`, so that a wrong arm fails at this clause, before the proofs of the laws.
fn word_of(instruction: Instruction) -> Option<u32>
    ensures { result ≡ encoded instruction }
{
    match instruction {
        Instruction::Lui { rd, imm } => form_u(Opcode::Lui, rd, imm),
        Instruction::Auipc { rd, imm } => form_u(Opcode::Auipc, rd, imm),
        Instruction::Jal { rd, offset } => form_j(Opcode::Jal, rd, offset),
        Instruction::Jalr { rd, rs1, offset } => form_i(Opcode::Jalr, rd, 0, rs1, offset),
        Instruction::Branch {
            op,
            rs1,
            rs2,
            offset,
        } => form_b(Opcode::Branch, op.funct3(), rs1, rs2, offset),
        Instruction::Load {
            op,
            rd,
            rs1,
            offset,
        } => form_i(Opcode::Load, rd, op.funct3(), rs1, offset),
        Instruction::Store {
            op,
            rs1,
            rs2,
            offset,
        } => form_s(Opcode::Store, op.funct3(), rs1, rs2, offset),
        Instruction::OpImm { op, rd, rs1, imm } => form_i(Opcode::OpImm, rd, op.funct3(), rs1, imm),
        Instruction::ShiftImm { op, rd, rs1, shamt } => form_r(
            Opcode::OpImm,
            rd,
            op.funct3(),
            rs1,
            shamt,
            op.funct7(),
        ),
        Instruction::Op { op, rd, rs1, rs2 } => {
            form_r(Opcode::Op, rd, op.funct3(), rs1, rs2, op.funct7())
        }
        Instruction::Fence => Some(0x0FF0000F),
        Instruction::Ecall => Some(0x00000073),
        Instruction::Ebreak => Some(0x00100073),
    }
}
