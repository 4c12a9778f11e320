// Loads and stores.
use machine::{Datum, Effect, execute, extend, load_width};
use rv32i::{Instruction, LoadOp, StoreOp};

#[derive(Clone, Copy, Debug, PartialEq, Eq)]
enum Access {
    Read(u32),
    Write(u32, Datum),
    // The number and the detail of the stop.
    Stop(u8, u32),
    Other,
}

fn asked(instruction: Instruction, address: u32, value: u32) -> Access {
    let mut registers = [0; 32];
    registers[2] = address;
    registers[3] = value;
    match execute(instruction, &registers, 0x100) {
        Effect::Read { address, .. } => Access::Read(address),
        Effect::Write { address, datum } => Access::Write(address, datum),
        Effect::Stop(stop) => Access::Stop(stop.number(), stop.detail()),
        _ => Access::Other,
    }
}

#[test]
fn loads(rt: HostRuntime) {
    let rows = [
        (LoadOp::Lb, 0, -1, Access::Read(0xFFFFFFFF)),
        (LoadOp::Lbu, 0xFFFFFFFF, 2, Access::Read(1)),
        (LoadOp::Lh, 0x101, 1, Access::Read(0x102)),
        (LoadOp::Lh, 0x101, 0, Access::Stop(4, 0x101)),
        (LoadOp::Lhu, 0x100, 3, Access::Stop(4, 0x103)),
        (LoadOp::Lw, 4, -8, Access::Read(0xFFFFFFFC)),
        (LoadOp::Lw, 0x100, 2, Access::Stop(4, 0x102)),
    ];
    for (op, address, offset, expected) in rows {
        let instruction = Instruction::Load {
            op,
            rd: 1,
            rs1: 2,
            offset,
        };
        assert_eq!(rt; asked(instruction, address, 0), expected);
    }
}

#[test]
fn stores(rt: HostRuntime) {
    let rows = [
        (StoreOp::Sb, 3, Access::Write(0x103, Datum::U8(0xCD))),
        (StoreOp::Sh, -2, Access::Write(0xFE, Datum::U16(0xABCD))),
        (StoreOp::Sh, 1, Access::Stop(4, 0x101)),
        (StoreOp::Sw, 4, Access::Write(0x104, Datum::U32(0x1234ABCD))),
        (StoreOp::Sw, 2, Access::Stop(4, 0x102)),
    ];
    for (op, offset, expected) in rows {
        let instruction = Instruction::Store {
            op,
            rs1: 2,
            rs2: 3,
            offset,
        };
        assert_eq!(rt; asked(instruction, 0x100, 0x1234ABCD), expected);
    }
}

#[test]
fn extensions(rt: HostRuntime) {
    let rows = [
        (LoadOp::Lb, 1, 0x7F, 0x7F),
        (LoadOp::Lb, 1, 0x80, 0xFFFFFF80),
        (LoadOp::Lb, 1, 0xFF, 0xFFFFFFFF),
        (LoadOp::Lb, 1, 0x1234567F, 0x7F),
        (LoadOp::Lh, 2, 0x7FFF, 0x7FFF),
        (LoadOp::Lh, 2, 0x8000, 0xFFFF8000),
        (LoadOp::Lh, 2, 0xFFFF, 0xFFFFFFFF),
        (LoadOp::Lh, 2, 0xFFFF0080, 0x80),
        (LoadOp::Lw, 4, 0x80000000, 0x80000000),
        (LoadOp::Lbu, 1, 0x80, 0x80),
        (LoadOp::Lbu, 1, 0xFFFFFFFF, 0xFF),
        (LoadOp::Lhu, 2, 0x8000, 0x8000),
        (LoadOp::Lhu, 2, 0xFFFF7FFF, 0x7FFF),
    ];
    for (op, bytes, raw, value) in rows {
        assert_eq!(rt; load_width(op).bytes(), bytes);
        assert_eq!(rt; extend(op, raw), value);
    }
}
