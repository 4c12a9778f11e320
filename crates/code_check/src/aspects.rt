// What the rules ask of an instruction.
ghost use Rattle.std.specs.Prelude.{◌≡◌};
ghost use Rattle.rv32i.specs.Decoded.{decoded};
ghost use Rattle.code_check.specs.Aspects.{written as written_of, store_base, jump_base, offset as offset_of, leaves as is_leaving, mask_of, base_of, is_base_of};

use crate::pointers::Pointer;
use rv32i::{Instruction, RegOp, decode};

// The register that it writes.
pub(crate) fn written(instruction: Instruction) -> Option<u8>
    ensures { result ≡ written_of instruction }
{
    match instruction {
        Instruction::Lui { rd, .. }
        | Instruction::Auipc { rd, .. }
        | Instruction::Jal { rd, .. }
        | Instruction::Jalr { rd, .. }
        | Instruction::Load { rd, .. }
        | Instruction::OpImm { rd, .. }
        | Instruction::ShiftImm { rd, .. }
        | Instruction::Op { rd, .. } => Some(rd),
        _ => None,
    }
}

// The base register of a store.
pub(crate) fn store_base(instruction: Instruction) -> Option<u8>
    ensures { result ≡ store_base instruction }
{
    match instruction {
        Instruction::Store { rs1, .. } => Some(rs1),
        _ => None,
    }
}

// The base register and the offset of a JALR.
pub(crate) fn jump_base(instruction: Instruction) -> Option<(u8, i32)>
    ensures { result ≡ jump_base instruction }
{
    match instruction {
        Instruction::Jalr { rs1, offset, .. } => Some((rs1, offset)),
        _ => None,
    }
}

// The way from a branch or a JAL to its target.
pub(crate) fn offset(instruction: Instruction) -> Option<i32>
    ensures { result ≡ offset_of instruction }
{
    match instruction {
        Instruction::Jal { offset, .. } | Instruction::Branch { offset, .. } => Some(offset),
        _ => None,
    }
}

// Whether the word after it is never the next to run.
pub(crate) fn leaves(instruction: Instruction) -> bool
    ensures { result ≡ is_leaving instruction }
{
    matches!(
        instruction,
        Instruction::Jal { .. } | Instruction::Jalr { .. } | Instruction::Ebreak
    )
}

// The pointer of which it is the mask word.
pub(crate) fn masked_pointer(instruction: Instruction) -> Option<Pointer>
    ensures { result ≡ mask_of instruction }
{
    match instruction {
        Instruction::Op {
            op: RegOp::And,
            rd,
            rs2,
            ..
        } => Pointer::held_by(rd).filter(|pointer| rs2 == pointer.mask()),
        _ => None,
    }
}

// The pointer of which it is the base word.
pub(crate) fn based_pointer(instruction: Instruction) -> Option<Pointer>
    ensures { result ≡ base_of instruction }
{
    match instruction {
        Instruction::Op {
            op: RegOp::Or,
            rd,
            rs1,
            rs2,
        } => Pointer::held_by(rd).filter(|pointer| rs1 == rd && rs2 == pointer.base()),
        _ => None,
    }
}

// Whether a word is the base word of a pointer.
pub(crate) fn is_base_word(word: u32, pointer: Pointer) -> bool
    ensures { result ≡ is_base_of pointer (decoded word) }
{
    decode(word).is_ok_and(|instruction| based_pointer(instruction) == Some(pointer))
}
