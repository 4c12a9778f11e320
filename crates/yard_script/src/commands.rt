use rv32i::Instruction;

#[derive(Drop)]
pub enum Command {
    Decode(u32),
    Encode(Instruction),
    // A new memory of zeros over one buffer of this many bytes.
    FlatMemory(u32),
    // The same over four lanes of these lengths.
    LanesMemory([u32; 4]),
    Peek {
        address: u32,
        count: u32,
    },
    Rights([u32; 8]),
    Rings {
        domains: [u8; 8],
        gates: [u8; 32],
    },
    May {
        domain: u32,
        gate: u32,
    },
    // Words that are appended to the code store.
    Code(Vec<u32>),
    // The same from a file, which has to be read before the script is run.
    CodeFile(String),
    Check {
        base: u32,
        m: u32,
    },
    // A new yard over the code store so far, for memories of this many bytes.
    Yard(u32),
    Admit {
        registers: [u32; 32],
        base: u32,
        m: u32,
        data: u32,
        k: u32,
    },
    Open {
        gate: u32,
        domain: u32,
        offset: u32,
    },
    Call {
        gate: u32,
        values: [u32; 7],
    },
    // A run of at most this many steps.
    Run(u32),
    Reply(u32),
    Cut,
    Register {
        domain: u32,
        number: u32,
    },
}
