ghost use Rattle.std.specs.Prelude.{◌≡◌};
ghost use Rattle.machine.specs.Executed.{next_of, even, linked, branched, loads, stores, executed};
ghost use Rattle.machine.specs.Laws.{Aligned};

use crate::accesses::{datum, load_width, store_width};
use crate::arithmetic::{add, imm_value, reg_value, shift_value};
use crate::branches::is_taken;
use crate::effects::Effect;
use crate::registers::register;
use crate::stops::Stop;
use rv32i::{Instruction, LoadOp, StoreOp};

// The pc of the next word.
pub fn next_pc(pc: u32) -> u32
    ensures is { result ≡ next_of pc }
{
    pc.wrapping_add(4)
}

fn without_bit_0(address: u32) -> u32
    ensures { result ≡ even address }
{
    address - address % 2
}

fn link(rd: u8, link: u32, target: u32) -> Effect
    ensures { result ≡ linked rd link target }
{
    if target % 4 == 0 {
        Effect::Link { rd, link, target }
    } else {
        Effect::Stop(Stop::Target { target })
    }
}

fn branch(taken: bool, target: u32) -> Effect
    ensures { result ≡ branched taken target }
{
    if !taken {
        Effect::Next
    } else if target % 4 == 0 {
        Effect::Jump { target }
    } else {
        Effect::Stop(Stop::Target { target })
    }
}

fn load(op: LoadOp, rd: u8, address: u32) -> Effect
    ensures { result ≡ loads op rd address }
{
    if load_width(op).divides(address) {
        Effect::Read { op, rd, address }
    } else {
        Effect::Stop(Stop::Misaligned { address })
    }
}

fn store(op: StoreOp, address: u32, word: u32) -> Effect
    ensures { result ≡ stores op address word }
{
    if store_width(op).divides(address) {
        Effect::Write {
            address,
            datum: datum(op, word),
        }
    } else {
        Effect::Stop(Stop::Misaligned { address })
    }
}

// What the instruction at `pc` does.
#[tactic(auto, using(crate::proofs::Multiples::executed_aligned))]
pub fn execute(instruction: Instruction, registers: &[u32; 32], pc: u32) -> Effect
    ensures is { result ≡ executed instruction registers.now pc }
    ensures aligned { Aligned result }
{
    effect_of(instruction, registers, pc)
}

// Apart from `execute`, so that a wrong effect is refused in the code, before the proof of the law.
fn effect_of(instruction: Instruction, registers: &[u32; 32], pc: u32) -> Effect
    ensures { result ≡ executed instruction registers.now pc }
{
    match instruction {
        Instruction::Lui { rd, imm } => Effect::Set {
            rd,
            value: imm.cast_unsigned(),
        },
        Instruction::Auipc { rd, imm } => Effect::Set {
            rd,
            value: add(pc, imm),
        },
        Instruction::Jal { rd, offset } => link(rd, next_pc(pc), add(pc, offset)),
        Instruction::Jalr { rd, rs1, offset } => {
            link(
                rd,
                next_pc(pc),
                without_bit_0(add(register(registers, rs1), offset)),
            )
        }
        Instruction::Branch {
            op,
            rs1,
            rs2,
            offset,
        } => branch(
            is_taken(op, register(registers, rs1), register(registers, rs2)),
            add(pc, offset),
        ),
        Instruction::Load {
            op,
            rd,
            rs1,
            offset,
        } => load(op, rd, add(register(registers, rs1), offset)),
        Instruction::Store {
            op,
            rs1,
            rs2,
            offset,
        } => store(
            op,
            add(register(registers, rs1), offset),
            register(registers, rs2),
        ),
        Instruction::OpImm { op, rd, rs1, imm } => Effect::Set {
            rd,
            value: imm_value(op, register(registers, rs1), imm),
        },
        Instruction::ShiftImm { op, rd, rs1, shamt } => Effect::Set {
            rd,
            value: shift_value(op, register(registers, rs1), shamt),
        },
        Instruction::Op { op, rd, rs1, rs2 } => Effect::Set {
            rd,
            value: reg_value(op, register(registers, rs1), register(registers, rs2)),
        },
        Instruction::Fence => Effect::Next,
        Instruction::Ecall => Effect::Call,
        Instruction::Ebreak => Effect::Stop(Stop::Break),
    }
}
