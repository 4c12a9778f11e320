ghost use Rattle.std.specs.Prelude.{◌≡◌};
ghost use Rattle.machine.specs.Stops.{stop_row};

// Why a step stops; such a step writes no register and no memory. Of two causes the earlier wins.
#[derive(Clone, Copy)]
pub enum Stop {
    // The pc is no multiple of 4, or past the code store.
    Fetch { pc: u32 },
    // The word is not RV32I.
    Illegal { word: u32 },
    // A jump, or a branch that is taken, to no multiple of 4.
    Target { target: u32 },
    // A data address that is no multiple of the access's width.
    Misaligned { address: u32 },
    // A data address that is not mapped.
    Unmapped { address: u32 },
    // A call of a gate that has no entry, or of number 32 or above; `gate` is x17.
    NoGate { gate: u32 },
    // A call that the policy forbids.
    Forbidden { gate: u32 },
    // A call of a gate whose domain is not idle.
    Busy { gate: u32 },
    // EBREAK.
    Break,
}

impl Stop {
    // The number by which the cause is known outside.
    pub fn number(self) -> u8
        ensures is { result ≡ (stop_row self).0 }
    {
        match self {
            Stop::Fetch { .. } => 1,
            Stop::Illegal { .. } => 2,
            Stop::Target { .. } => 3,
            Stop::Misaligned { .. } => 4,
            Stop::Unmapped { .. } => 5,
            Stop::NoGate { .. } => 6,
            Stop::Forbidden { .. } => 7,
            Stop::Busy { .. } => 8,
            Stop::Break => 9,
        }
    }

    // The pc, word, address or gate that the cause is about.
    pub fn detail(self) -> u32
        ensures is { result ≡ (stop_row self).1 }
    {
        match self {
            Stop::Fetch { pc } => pc,
            Stop::Illegal { word } => word,
            Stop::Target { target } => target,
            Stop::Misaligned { address } | Stop::Unmapped { address } => address,
            Stop::NoGate { gate } | Stop::Forbidden { gate } | Stop::Busy { gate } => gate,
            Stop::Break => 0,
        }
    }
}
