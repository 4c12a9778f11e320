// The instructions that set a register from registers, an immediate or the pc.
use machine::{Effect, execute, register, set_register};
use rv32i::{ImmOp, Instruction, RegOp, ShiftOp};
use std::process::Abort;

const PC: u32 = 0x1000;

// What the instruction sets x1 to, where x2 and x3 hold a and b.
fn computed(instruction: Instruction, a: u32, b: u32, pc: u32) -> Option<u32> {
    let mut registers = [0; 32];
    registers[2] = a;
    registers[3] = b;
    match execute(instruction, &registers, pc) {
        Effect::Set { rd: 1, value } => Some(value),
        _ => None,
    }
}

// Each row has a, the other operand and the value.
fn expect<B: Copy, F: Fn(u32, B) -> Option<u32>>(
    rt: &impl Abort,
    rows: &[(u32, B, u32)],
    computed: F,
)
    requires { F.IsAlwaysCallable computed }
{
    for row in rows {
        let (a, b, value) = *row;
        assert_eq!(rt; computed(a, b), Some(value));
    }
}

fn expect_op(rt: &impl Abort, op: RegOp, rows: &[(u32, u32, u32)]) {
    let instruction = Instruction::Op {
        op,
        rd: 1,
        rs1: 2,
        rs2: 3,
    };
    expect(rt, rows, |a, b| computed(instruction, a, b, PC));
}

fn expect_imm(rt: &impl Abort, op: ImmOp, rows: &[(u32, i32, u32)]) {
    expect(rt, rows, |a, imm| {
        let instruction = Instruction::OpImm {
            op,
            rd: 1,
            rs1: 2,
            imm,
        };
        computed(instruction, a, 0, PC)
    });
}

fn expect_shift(rt: &impl Abort, op: ShiftOp, rows: &[(u32, u8, u32)]) {
    expect(rt, rows, |a, shamt| {
        let instruction = Instruction::ShiftImm {
            op,
            rd: 1,
            rs1: 2,
            shamt,
        };
        computed(instruction, a, 0, PC)
    });
}

#[test]
fn sums(rt: HostRuntime) {
    expect_op(
        &rt,
        RegOp::Add,
        &[
            (0xFFFFFFFF, 1, 0),
            (0x7FFFFFFF, 1, 0x80000000),
            (0x80000000, 0x80000000, 0),
        ],
    );
    expect_op(
        &rt,
        RegOp::Sub,
        &[(0, 1, 0xFFFFFFFF), (0, 0x80000000, 0x80000000), (5, 5, 0)],
    );
    expect_imm(
        &rt,
        ImmOp::Addi,
        &[
            (0, -1, 0xFFFFFFFF),
            (0x7FFFFFFF, 1, 0x80000000),
            (0xFFFFFFFF, 2047, 0x7FE),
            (0, -2048, 0xFFFFF800),
        ],
    );
}

#[test]
fn comparisons(rt: HostRuntime) {
    expect_op(
        &rt,
        RegOp::Slt,
        &[
            (0x80000000, 0x7FFFFFFF, 1),
            (0x7FFFFFFF, 0x80000000, 0),
            (0xFFFFFFFF, 0, 1),
            (0, 0xFFFFFFFF, 0),
            (7, 7, 0),
        ],
    );
    expect_op(
        &rt,
        RegOp::Sltu,
        &[
            (0x80000000, 0x7FFFFFFF, 0),
            (0x7FFFFFFF, 0x80000000, 1),
            (0, 0xFFFFFFFF, 1),
            (7, 7, 0),
        ],
    );
    expect_imm(
        &rt,
        ImmOp::Slti,
        &[
            (0x80000000, -2048, 1),
            (0x7FFFFFFF, 2047, 0),
            (0, -1, 0),
            (0xFFFFFFFE, -1, 1),
            (0xFFFFFFFF, -1, 0),
        ],
    );
    expect_imm(
        &rt,
        ImmOp::Sltiu,
        &[
            (0, -1, 1),
            (0xFFFFFFFE, -1, 1),
            (0xFFFFFFFF, -1, 0),
            (0, 1, 1),
            (1, 1, 0),
            (0x80000000, 2047, 0),
        ],
    );
}

#[test]
fn bitwise(rt: HostRuntime) {
    expect_op(&rt, RegOp::Xor, &[(0xF0F0F0F0, 0xFF00FF00, 0x0FF00FF0)]);
    expect_op(&rt, RegOp::Or, &[(0xF0F0F0F0, 0xFF00FF00, 0xFFF0FFF0)]);
    expect_op(&rt, RegOp::And, &[(0xF0F0F0F0, 0xFF00FF00, 0xF000F000)]);
    expect_imm(&rt, ImmOp::Xori, &[(0x12345678, -1, 0xEDCBA987)]);
    expect_imm(&rt, ImmOp::Ori, &[(0x12345678, -2048, 0xFFFFFE78)]);
    expect_imm(&rt, ImmOp::Andi, &[(0x12345678, -2048, 0x12345000)]);
}

#[test]
fn shifts(rt: HostRuntime) {
    expect_op(
        &rt,
        RegOp::Sll,
        &[
            (1, 31, 0x80000000),
            (0x80000001, 1, 2),
            (3, 32, 3),
            (1, 0xFFFFFFE4, 0x10),
        ],
    );
    expect_op(
        &rt,
        RegOp::Srl,
        &[
            (0x80000000, 31, 1),
            (0xFFFFFFF9, 1, 0x7FFFFFFC),
            (0x80000000, 32, 0x80000000),
        ],
    );
    expect_op(
        &rt,
        RegOp::Sra,
        &[
            (0x80000000, 31, 0xFFFFFFFF),
            (0x80000000, 1, 0xC0000000),
            (0xFFFFFFF9, 1, 0xFFFFFFFC),
            (0xFFFFFFFF, 31, 0xFFFFFFFF),
            (0x7FFFFFFF, 30, 1),
            (0x80000000, 32, 0x80000000),
            (0x80000000, 0xFFFFFFFF, 0xFFFFFFFF),
        ],
    );
    expect_shift(
        &rt,
        ShiftOp::Slli,
        &[(0x80000001, 1, 2), (1, 31, 0x80000000), (9, 0, 9)],
    );
    expect_shift(
        &rt,
        ShiftOp::Srli,
        &[(0xFFFFFFF9, 1, 0x7FFFFFFC), (0x80000000, 31, 1)],
    );
    expect_shift(
        &rt,
        ShiftOp::Srai,
        &[
            (0xFFFFFFF9, 1, 0xFFFFFFFC),
            (0x80000000, 31, 0xFFFFFFFF),
            (0x80000000, 0, 0x80000000),
        ],
    );
}

#[test]
fn upper_immediates(rt: HostRuntime) {
    let lui = Instruction::Lui { rd: 1, imm: -4096 };
    assert_eq!(rt; computed(lui, 0, 0, PC), Some(0xFFFFF000));
    let back = Instruction::Auipc { rd: 1, imm: -4096 };
    assert_eq!(rt; computed(back, 0, 0, PC), Some(0));
    let ahead = Instruction::Auipc { rd: 1, imm: 4096 };
    assert_eq!(rt; computed(ahead, 0, 0, 0xFFFFFFFC), Some(0xFFC));
}

#[test]
fn zero_register(rt: HostRuntime) {
    let mut registers = [7; 32];
    assert_eq!(rt; register(&registers, 0), 0);
    assert_eq!(rt; register(&registers, 31), 7);
    assert_eq!(rt; register(&registers, 32), 0);
    set_register(&mut registers, 0, 9);
    set_register(&mut registers, 32, 9);
    set_register(&mut registers, 31, 9);
    assert_eq!(rt; registers[0], 7);
    assert_eq!(rt; registers[30], 7);
    assert_eq!(rt; registers[31], 9);
    let copy = Instruction::OpImm {
        op: ImmOp::Addi,
        rd: 5,
        rs1: 0,
        imm: 3,
    };
    let effect = execute(copy, &registers, PC);
    assert!(rt; matches!(effect, Effect::Set { rd: 5, value: 3 }));
}
