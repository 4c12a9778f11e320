// FENCE, ECALL and EBREAK, and the causes of a stop.
use machine::{Effect, Stop, execute};
use rv32i::Instruction;
use std::test::Fail;

#[test]
fn system(rt: HostRuntime) -> Result<(), Fail> {
    let registers = [0; 32];
    let fence = execute(Instruction::Fence, &registers, 0);
    assert!(rt; matches!(fence, Effect::Next));
    let call = execute(Instruction::Ecall, &registers, 0);
    assert!(rt; matches!(call, Effect::Call));
    let Effect::Stop(stop) = execute(Instruction::Ebreak, &registers, 0) else {
        return Err(Fail::new("no stop"));
    };
    assert_eq!(rt; (stop.number(), stop.detail()), (9, 0));
    Ok(())
}

#[test]
fn causes(rt: HostRuntime) {
    let rows = [
        (Stop::Fetch { pc: 11 }, 1, 11),
        (Stop::Illegal { word: 12 }, 2, 12),
        (Stop::Target { target: 13 }, 3, 13),
        (Stop::Misaligned { address: 14 }, 4, 14),
        (Stop::Unmapped { address: 15 }, 5, 15),
        (Stop::NoGate { gate: 16 }, 6, 16),
        (Stop::Forbidden { gate: 17 }, 7, 17),
        (Stop::Busy { gate: 18 }, 8, 18),
        (Stop::Break, 9, 0),
    ];
    for (stop, number, detail) in rows {
        assert_eq!(rt; (stop.number(), stop.detail()), (number, detail));
    }
}
