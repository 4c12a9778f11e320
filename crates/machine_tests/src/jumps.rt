// JAL, JALR and the branches.
use machine::{Effect, execute, next_pc};
use rv32i::{BranchOp, Instruction};

#[derive(Clone, Copy, Debug, PartialEq, Eq)]
enum Way {
    // The next pc.
    To(u32),
    // The number and the detail of the stop.
    Stop(u8, u32),
    Other,
}

// Where the instruction leads, where x2 and x3 hold a and b.
fn led(instruction: Instruction, a: u32, b: u32, pc: u32) -> Way {
    let mut registers = [0; 32];
    registers[2] = a;
    registers[3] = b;
    match execute(instruction, &registers, pc) {
        Effect::Next => Way::To(next_pc(pc)),
        Effect::Jump { target } | Effect::Link { target, .. } => Way::To(target),
        Effect::Stop(stop) => Way::Stop(stop.number(), stop.detail()),
        _ => Way::Other,
    }
}

#[test]
fn jal(rt: HostRuntime) {
    let rows = [
        (0xFFFFFFFC, 8, Way::To(4)),
        (4, -8, Way::To(0xFFFFFFFC)),
        (0x100, 0, Way::To(0x100)),
        (0x100, 2, Way::Stop(3, 0x102)),
    ];
    for (pc, offset, expected) in rows {
        let instruction = Instruction::Jal { rd: 1, offset };
        assert_eq!(rt; led(instruction, 0, 0, pc), expected);
    }
}

#[test]
fn jalr_clears_bit_0(rt: HostRuntime) {
    let rows = [
        (0x1003, -2, Way::To(0x1000)),
        (0x1001, 0, Way::To(0x1000)),
        (0x1003, 0, Way::Stop(3, 0x1002)),
        (0xFFFFFFFF, 1, Way::To(0)),
        (0, -4, Way::To(0xFFFFFFFC)),
        (0xFFFFFFFF, 0, Way::Stop(3, 0xFFFFFFFE)),
    ];
    for (a, offset, expected) in rows {
        let instruction = Instruction::Jalr {
            rd: 1,
            rs1: 2,
            offset,
        };
        assert_eq!(rt; led(instruction, a, 0, 0x100), expected);
    }
}

// The link is the next pc, also where that wraps, and where the target's register is the link's.
#[test]
fn links(rt: HostRuntime) {
    let registers = [0x40; 32];
    let jal = Instruction::Jal { rd: 5, offset: 8 };
    let effect = execute(jal, &registers, 0xFFFFFFFC);
    assert!(rt; matches!(effect, Effect::Link { rd: 5, link: 0, .. }));
    let jalr = Instruction::Jalr {
        rd: 1,
        rs1: 1,
        offset: 0,
    };
    let effect = execute(jalr, &registers, 0x100);
    assert!(rt;
        matches!(
            effect,
            Effect::Link {
                rd: 1,
                link: 0x104,
                target: 0x40
            }
        )
    );
}

#[test]
fn branches(rt: HostRuntime) {
    let least = 0x80000000;
    let most = 0x7FFFFFFF;
    let rows = [
        (BranchOp::Beq, 7, 7, true),
        (BranchOp::Beq, 7, 8, false),
        (BranchOp::Bne, 7, 7, false),
        (BranchOp::Bne, 7, 8, true),
        (BranchOp::Blt, least, most, true),
        (BranchOp::Blt, most, least, false),
        (BranchOp::Blt, 7, 7, false),
        (BranchOp::Bge, least, most, false),
        (BranchOp::Bge, most, least, true),
        (BranchOp::Bge, 7, 7, true),
        (BranchOp::Bltu, least, most, false),
        (BranchOp::Bltu, most, least, true),
        (BranchOp::Bltu, 7, 7, false),
        (BranchOp::Bgeu, least, most, true),
        (BranchOp::Bgeu, most, least, false),
        (BranchOp::Bgeu, 7, 7, true),
    ];
    for (op, a, b, taken) in rows {
        let instruction = Instruction::Branch {
            op,
            rs1: 2,
            rs2: 3,
            offset: -0x104,
        };
        let expected = if taken { 0xFFFFFFFC } else { 0x104 };
        assert_eq!(rt; led(instruction, a, b, 0x100), Way::To(expected));
    }
}

// Only a branch that is taken stops at a target that is no multiple of 4.
#[test]
fn crooked_branches(rt: HostRuntime) {
    let instruction = Instruction::Branch {
        op: BranchOp::Beq,
        rs1: 2,
        rs2: 3,
        offset: 6,
    };
    assert_eq!(rt; led(instruction, 7, 7, 0x100), Way::Stop(3, 0x106));
    assert_eq!(rt; led(instruction, 7, 8, 0x100), Way::To(0x104));
}
