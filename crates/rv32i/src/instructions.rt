use crate::operations::{BranchOp, ImmOp, LoadOp, RegOp, ShiftOp, StoreOp};

// An instruction of RV32I, with its registers by number and its immediate as a signed number.
// `imm` of LUI and AUIPC is the whole 32-bit number, its low twelve bits 0.
#[derive(Clone, Copy)]
pub enum Instruction {
    Lui {
        rd: u8,
        imm: i32,
    },
    Auipc {
        rd: u8,
        imm: i32,
    },
    Jal {
        rd: u8,
        offset: i32,
    },
    Jalr {
        rd: u8,
        rs1: u8,
        offset: i32,
    },
    Branch {
        op: BranchOp,
        rs1: u8,
        rs2: u8,
        offset: i32,
    },
    Load {
        op: LoadOp,
        rd: u8,
        rs1: u8,
        offset: i32,
    },
    Store {
        op: StoreOp,
        rs1: u8,
        rs2: u8,
        offset: i32,
    },
    OpImm {
        op: ImmOp,
        rd: u8,
        rs1: u8,
        imm: i32,
    },
    ShiftImm {
        op: ShiftOp,
        rd: u8,
        rs1: u8,
        shamt: u8,
    },
    Op {
        op: RegOp,
        rd: u8,
        rs1: u8,
        rs2: u8,
    },
    Fence,
    Ecall,
    Ebreak,
}
