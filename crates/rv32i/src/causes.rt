ghost use Rattle.std.specs.Prelude.{◌≡◌};
ghost use Rattle.rv32i.specs.Causes.{cause_number};

// Why a word is not RV32I.
#[derive(Clone, Copy)]
pub enum Cause {
    Opcode,
    Funct3,
    Funct7,
    System,
}

impl Cause {
    // The number by which the cause is known outside; `From<Cause> for u8` would be a second name for it.
    pub fn number(self) -> u8
        ensures is { result ≡ cause_number self }
    {
        match self {
            Cause::Opcode => 1,
            Cause::Funct3 => 2,
            Cause::Funct7 => 3,
            Cause::System => 4,
        }
    }
}
