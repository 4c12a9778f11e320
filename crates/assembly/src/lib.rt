// Instructions read back from their text.
#![tactic(auto)]

ghost use Rattle.std.specs.Prelude.{◌≡◌, IfSome, IfOk};
ghost use Rattle.rv32i.specs.Text.{text_of};

use rv32i::{BranchOp, ImmOp, Instruction, LoadOp, RegOp, ShiftOp, StoreOp};
use std::alloc::{AllocError, Global};

// The instruction whose text this is, if it is the text of one. A text is read only in the very form
// that is printed, so what was read is printed again and compared.
pub fn parse(heap: Global, text: &str) -> Result<Option<Instruction>, AllocError>
    ensures is { IfOk result (λ o. IfSome o (λ i. text_of i ≡ text.now)) }
{
    let Some(instruction) = guess(text) else {
        return Ok(None);
    };
    let printed = instruction.to_string(heap)?;
    if printed.as_str() == text {
        Ok(Some(instruction))
    } else {
        Ok(None)
    }
}

// What the text seems to be: the instruction whose text it is, where it is one's.
fn guess(text: &str) -> Option<Instruction> {
    match text.split_once(' ') {
        Some((name, operands)) => guess_operands(name, operands),
        None => match text {
            "fence" => Some(Instruction::Fence),
            "ecall" => Some(Instruction::Ecall),
            "ebreak" => Some(Instruction::Ebreak),
            _ => None,
        },
    }
}

fn guess_operands(name: &str, operands: &str) -> Option<Instruction> {
    let (first, rest) = operands.split_once(',')?;
    match rest.split_once(',') {
        Some((second, third)) => guess_three(name, register(first)?, register(second)?, third),
        None => guess_two(name, register(first)?, rest),
    }
}

fn guess_two(name: &str, first: u8, second: &str) -> Option<Instruction> {
    match name {
        "lui" => Some(Instruction::Lui {
            rd: first,
            imm: upper(second)?,
        }),
        "auipc" => Some(Instruction::Auipc {
            rd: first,
            imm: upper(second)?,
        }),
        "jal" => Some(Instruction::Jal {
            rd: first,
            offset: signed(second)?,
        }),
        _ => guess_based(name, first, second),
    }
}

// An operand of the form offset(base).
fn guess_based(name: &str, first: u8, second: &str) -> Option<Instruction> {
    let (offset, base) = second.split_once('(')?;
    let offset = signed(offset)?;
    let rs1 = register(base.strip_suffix(')')?)?;
    if name == "jalr" {
        return Some(Instruction::Jalr {
            rd: first,
            rs1,
            offset,
        });
    }
    if let Ok(op) = name.parse::<LoadOp>() {
        return Some(Instruction::Load {
            op,
            rd: first,
            rs1,
            offset,
        });
    }
    Some(Instruction::Store {
        op: name.parse::<StoreOp>().ok()?,
        rs1,
        rs2: first,
        offset,
    })
}

fn guess_three(name: &str, first: u8, second: u8, third: &str) -> Option<Instruction> {
    if let Ok(op) = name.parse::<BranchOp>() {
        return Some(Instruction::Branch {
            op,
            rs1: first,
            rs2: second,
            offset: signed(third)?,
        });
    }
    if let Ok(op) = name.parse::<ImmOp>() {
        return Some(Instruction::OpImm {
            op,
            rd: first,
            rs1: second,
            imm: signed(third)?,
        });
    }
    if let Ok(op) = name.parse::<ShiftOp>() {
        return Some(Instruction::ShiftImm {
            op,
            rd: first,
            rs1: second,
            shamt: u8::try_from(hexadecimal(third)?).ok()?,
        });
    }
    Some(Instruction::Op {
        op: name.parse::<RegOp>().ok()?,
        rd: first,
        rs1: second,
        rs2: register(third)?,
    })
}

fn register(text: &str) -> Option<u8> {
    text.strip_prefix('x')?.parse::<u8>().ok()
}

fn signed(text: &str) -> Option<i32> {
    text.parse::<i32>().ok()
}

fn hexadecimal(text: &str) -> Option<u32> {
    u32::from_str_radix(text.strip_prefix("0x")?, 16).ok()
}

// An immediate that is written by its upper twenty bits.
fn upper(text: &str) -> Option<i32> {
    let high = hexadecimal(text)?;
    (high < 1 << 20).then_some((high << 12).cast_signed())
}
