// Instructions as text: the GNU assembler's form, without aliases and with numbered registers.
// `Display` and `FromStr` of the operations are a table and its inverse for each of the six types, which share no name.
ghost use Rattle.std.specs.Prelude.{◌≡◌, Some, codes, decimal};
ghost use Rattle.rv32i.specs.Causes.{cause_number};
ghost use Rattle.rv32i.specs.Text.{branch_name, load_name, store_name, imm_name, shift_name, reg_name, ReadsName, upper, text_of};

use crate::causes::Cause;
use crate::instructions::Instruction;
use crate::operations::{BranchOp, ImmOp, LoadOp, RegOp, ShiftOp, StoreOp};
use std::error::Error;
use std::fmt;
use std::str::FromStr;

impl fmt::Display for Cause {
    ghost output = { λ c. Some (decimal (cause_number c)) };

    fn fmt<W: fmt::Write>(&self, f: &mut fmt::Formatter<W>) -> fmt::Result {
        write!(f, "{}", self.number())
    }
}

// No operation of the kind that was asked for has this name.
#[derive(Clone, Copy, Debug, PartialEq, Eq)]
pub struct UnknownMnemonic;

impl fmt::Display for UnknownMnemonic {
    ghost output = { λ _. Some (codes "unknown mnemonic") };

    fn fmt<W: fmt::Write>(&self, f: &mut fmt::Formatter<W>) -> fmt::Result {
        f.write_str("unknown mnemonic")
    }
}

impl Error for UnknownMnemonic {}

impl fmt::Display for BranchOp {
    ghost output = { λ op. Some (branch_name op) };

    fn fmt<W: fmt::Write>(&self, f: &mut fmt::Formatter<W>) -> fmt::Result {
        f.write_str(match self {
            BranchOp::Beq => "beq",
            BranchOp::Bne => "bne",
            BranchOp::Blt => "blt",
            BranchOp::Bge => "bge",
            BranchOp::Bltu => "bltu",
            BranchOp::Bgeu => "bgeu",
        })
    }
}

impl FromStr for BranchOp {
    type Err = UnknownMnemonic;

    ghost from_str_gives = { ReadsName branch_name };

    fn from_str(name: &str) -> Result<Self, UnknownMnemonic> {
        match name {
            "beq" => Ok(BranchOp::Beq),
            "bne" => Ok(BranchOp::Bne),
            "blt" => Ok(BranchOp::Blt),
            "bge" => Ok(BranchOp::Bge),
            "bltu" => Ok(BranchOp::Bltu),
            "bgeu" => Ok(BranchOp::Bgeu),
            _ => Err(UnknownMnemonic),
        }
    }
}

impl fmt::Display for LoadOp {
    ghost output = { λ op. Some (load_name op) };

    fn fmt<W: fmt::Write>(&self, f: &mut fmt::Formatter<W>) -> fmt::Result {
        f.write_str(match self {
            LoadOp::Lb => "lb",
            LoadOp::Lh => "lh",
            LoadOp::Lw => "lw",
            LoadOp::Lbu => "lbu",
            LoadOp::Lhu => "lhu",
        })
    }
}

impl FromStr for LoadOp {
    type Err = UnknownMnemonic;

    ghost from_str_gives = { ReadsName load_name };

    fn from_str(name: &str) -> Result<Self, UnknownMnemonic> {
        match name {
            "lb" => Ok(LoadOp::Lb),
            "lh" => Ok(LoadOp::Lh),
            "lw" => Ok(LoadOp::Lw),
            "lbu" => Ok(LoadOp::Lbu),
            "lhu" => Ok(LoadOp::Lhu),
            _ => Err(UnknownMnemonic),
        }
    }
}

impl fmt::Display for StoreOp {
    ghost output = { λ op. Some (store_name op) };

    fn fmt<W: fmt::Write>(&self, f: &mut fmt::Formatter<W>) -> fmt::Result {
        f.write_str(match self {
            StoreOp::Sb => "sb",
            StoreOp::Sh => "sh",
            StoreOp::Sw => "sw",
        })
    }
}

impl FromStr for StoreOp {
    type Err = UnknownMnemonic;

    ghost from_str_gives = { ReadsName store_name };

    fn from_str(name: &str) -> Result<Self, UnknownMnemonic> {
        match name {
            "sb" => Ok(StoreOp::Sb),
            "sh" => Ok(StoreOp::Sh),
            "sw" => Ok(StoreOp::Sw),
            _ => Err(UnknownMnemonic),
        }
    }
}

impl fmt::Display for ImmOp {
    ghost output = { λ op. Some (imm_name op) };

    fn fmt<W: fmt::Write>(&self, f: &mut fmt::Formatter<W>) -> fmt::Result {
        f.write_str(match self {
            ImmOp::Addi => "addi",
            ImmOp::Slti => "slti",
            ImmOp::Sltiu => "sltiu",
            ImmOp::Xori => "xori",
            ImmOp::Ori => "ori",
            ImmOp::Andi => "andi",
        })
    }
}

impl FromStr for ImmOp {
    type Err = UnknownMnemonic;

    ghost from_str_gives = { ReadsName imm_name };

    fn from_str(name: &str) -> Result<Self, UnknownMnemonic> {
        match name {
            "addi" => Ok(ImmOp::Addi),
            "slti" => Ok(ImmOp::Slti),
            "sltiu" => Ok(ImmOp::Sltiu),
            "xori" => Ok(ImmOp::Xori),
            "ori" => Ok(ImmOp::Ori),
            "andi" => Ok(ImmOp::Andi),
            _ => Err(UnknownMnemonic),
        }
    }
}

impl fmt::Display for ShiftOp {
    ghost output = { λ op. Some (shift_name op) };

    fn fmt<W: fmt::Write>(&self, f: &mut fmt::Formatter<W>) -> fmt::Result {
        f.write_str(match self {
            ShiftOp::Slli => "slli",
            ShiftOp::Srli => "srli",
            ShiftOp::Srai => "srai",
        })
    }
}

impl FromStr for ShiftOp {
    type Err = UnknownMnemonic;

    ghost from_str_gives = { ReadsName shift_name };

    fn from_str(name: &str) -> Result<Self, UnknownMnemonic> {
        match name {
            "slli" => Ok(ShiftOp::Slli),
            "srli" => Ok(ShiftOp::Srli),
            "srai" => Ok(ShiftOp::Srai),
            _ => Err(UnknownMnemonic),
        }
    }
}

impl fmt::Display for RegOp {
    ghost output = { λ op. Some (reg_name op) };

    fn fmt<W: fmt::Write>(&self, f: &mut fmt::Formatter<W>) -> fmt::Result {
        f.write_str(match self {
            RegOp::Add => "add",
            RegOp::Sub => "sub",
            RegOp::Sll => "sll",
            RegOp::Slt => "slt",
            RegOp::Sltu => "sltu",
            RegOp::Xor => "xor",
            RegOp::Srl => "srl",
            RegOp::Sra => "sra",
            RegOp::Or => "or",
            RegOp::And => "and",
        })
    }
}

impl FromStr for RegOp {
    type Err = UnknownMnemonic;

    ghost from_str_gives = { ReadsName reg_name };

    fn from_str(name: &str) -> Result<Self, UnknownMnemonic> {
        match name {
            "add" => Ok(RegOp::Add),
            "sub" => Ok(RegOp::Sub),
            "sll" => Ok(RegOp::Sll),
            "slt" => Ok(RegOp::Slt),
            "sltu" => Ok(RegOp::Sltu),
            "xor" => Ok(RegOp::Xor),
            "srl" => Ok(RegOp::Srl),
            "sra" => Ok(RegOp::Sra),
            "or" => Ok(RegOp::Or),
            "and" => Ok(RegOp::And),
            _ => Err(UnknownMnemonic),
        }
    }
}

impl fmt::Display for Instruction {
    ghost output = { λ i. Some (text_of i) };

    #[tactic(auto, using(crate::proofs::Hex::hexadecimal_digits))]
    fn fmt<W: fmt::Write>(&self, f: &mut fmt::Formatter<W>) -> fmt::Result {
        match *self {
            Instruction::Lui { rd, imm } => {
                let high = upper_bits(imm);
                write!(f, "lui x{rd},0x{high:x}")
            }
            Instruction::Auipc { rd, imm } => {
                let high = upper_bits(imm);
                write!(f, "auipc x{rd},0x{high:x}")
            }
            Instruction::Jal { rd, offset } => write!(f, "jal x{rd},{offset}"),
            Instruction::Jalr { rd, rs1, offset } => write!(f, "jalr x{rd},{offset}(x{rs1})"),
            Instruction::Branch {
                op,
                rs1,
                rs2,
                offset,
            } => write!(f, "{op} x{rs1},x{rs2},{offset}"),
            Instruction::Load {
                op,
                rd,
                rs1,
                offset,
            } => write!(f, "{op} x{rd},{offset}(x{rs1})"),
            Instruction::Store {
                op,
                rs1,
                rs2,
                offset,
            } => write!(f, "{op} x{rs2},{offset}(x{rs1})"),
            Instruction::OpImm { op, rd, rs1, imm } => write!(f, "{op} x{rd},x{rs1},{imm}"),
            Instruction::ShiftImm { op, rd, rs1, shamt } => {
                write!(f, "{op} x{rd},x{rs1},0x{shamt:x}")
            }
            Instruction::Op { op, rd, rs1, rs2 } => write!(f, "{op} x{rd},x{rs1},x{rs2}"),
            Instruction::Fence => f.write_str("fence"),
            Instruction::Ecall => f.write_str("ecall"),
            Instruction::Ebreak => f.write_str("ebreak"),
        }
    }
}

// The upper twenty bits of an immediate, as LUI and AUIPC are written with them.
fn upper_bits(imm: i32) -> u32
    ensures { result ≡ upper imm }
{
    imm.cast_unsigned() >> 12
}
