ghost use Rattle.std.specs.Prelude.{◌≡◌};
ghost use Rattle.rv32i.specs.Decoded.{decoded, op_imm_of};
ghost use Rattle.rv32i.specs.Laws.{HoldsExactly, EncodesAgain, CauseOfTable, RegistersBelow32, Examples};

use crate::causes::Cause;
use crate::fields::{funct3, funct7, imm_b, imm_i, imm_j, imm_s, imm_u, opcode, rd, rs1, rs2};
use crate::instructions::Instruction;
use crate::opcodes::Opcode;
use crate::operations::{BranchOp, ImmOp, LoadOp, RegOp, ShiftOp, StoreOp};

// The instruction that a word holds, or why it holds none.
pub fn decode(word: u32) -> Result<Instruction, Cause>
    ensures is { result ≡ decoded word }
    ensures holds { HoldsExactly word result }
    ensures encodes { EncodesAgain word result }
    ensures refused { CauseOfTable word result }
    ensures registers { RegistersBelow32 result }
    ensures examples { Examples }
{
    instruction_of(word)
}

// Apart from `decode`, so that a wrong arm fails at this clause, before the proofs of the laws.
fn instruction_of(word: u32) -> Result<Instruction, Cause>
    ensures { result ≡ decoded word }
{
    let rd = rd(word);
    let rs1 = rs1(word);
    let rs2 = rs2(word);
    match Opcode::try_from(opcode(word))? {
        Opcode::Lui => Ok(Instruction::Lui {
            rd,
            imm: imm_u(word),
        }),
        Opcode::Auipc => Ok(Instruction::Auipc {
            rd,
            imm: imm_u(word),
        }),
        Opcode::Jal => Ok(Instruction::Jal {
            rd,
            offset: imm_j(word),
        }),
        Opcode::Jalr => match funct3(word) {
            0 => Ok(Instruction::Jalr {
                rd,
                rs1,
                offset: imm_i(word),
            }),
            _ => Err(Cause::Funct3),
        },
        Opcode::Branch => {
            let op = BranchOp::from_funct3(funct3(word)).ok_or(Cause::Funct3)?;
            Ok(Instruction::Branch {
                op,
                rs1,
                rs2,
                offset: imm_b(word),
            })
        }
        Opcode::Load => {
            let op = LoadOp::from_funct3(funct3(word)).ok_or(Cause::Funct3)?;
            Ok(Instruction::Load {
                op,
                rd,
                rs1,
                offset: imm_i(word),
            })
        }
        Opcode::Store => {
            let op = StoreOp::from_funct3(funct3(word)).ok_or(Cause::Funct3)?;
            Ok(Instruction::Store {
                op,
                rs1,
                rs2,
                offset: imm_s(word),
            })
        }
        Opcode::OpImm => op_imm_of(word),
        Opcode::Op => {
            let op = RegOp::from_functs(funct3(word), funct7(word)).ok_or(Cause::Funct7)?;
            Ok(Instruction::Op { op, rd, rs1, rs2 })
        }
        Opcode::MiscMem => match funct3(word) {
            0 => Ok(Instruction::Fence),
            _ => Err(Cause::Funct3),
        },
        Opcode::System => match word {
            0x00000073 => Ok(Instruction::Ecall),
            0x00100073 => Ok(Instruction::Ebreak),
            _ => Err(Cause::System),
        },
    }
}

// Opcode OP-IMM: funct3 names an operation with an immediate, or else, with funct7, a shift.
fn op_imm_of(word: u32) -> Result<Instruction, Cause>
    ensures { result ≡ op_imm_of word }
{
    let rd = rd(word);
    let rs1 = rs1(word);
    if let Some(op) = ImmOp::from_funct3(funct3(word)) {
        return Ok(Instruction::OpImm {
            op,
            rd,
            rs1,
            imm: imm_i(word),
        });
    }
    let op = ShiftOp::from_functs(funct3(word), funct7(word)).ok_or(Cause::Funct7)?;
    Ok(Instruction::ShiftImm {
        op,
        rd,
        rs1,
        shamt: rs2(word),
    })
}
