ghost use Rattle.std.specs.Prelude.{◌≡◌, ◌==◌};
ghost use Rattle.rv32i.specs.Table.{first};
ghost use Rattle.code_check.specs.Aspects.{pointers};
ghost use Rattle.code_check.specs.Registers.{register as register_of, mask as mask_of, base as base_of, dedicated as is_dedicated, may_store};

// The two dedicated registers that hold addresses, each with a register for its mask and one for its base.
#[derive(Clone, Copy, Debug, PartialEq, Eq)]
pub enum Pointer {
    // Stores go through it.
    Data,
    // Indirect jumps go through it.
    Code,
}

// Three tables, and no struct of three numbers, since whoever asks wants one of them.
impl Pointer {
    // The pointer that a register holds.
    pub(crate) fn held_by(register: u8) -> Option<Pointer>
        ensures { result ≡ first (λ q. register == register_of q) pointers }
    {
        if register == Pointer::Data.register() {
            Some(Pointer::Data)
        } else if register == Pointer::Code.register() {
            Some(Pointer::Code)
        } else {
            None
        }
    }

    pub fn register(self) -> u8
        ensures is { result ≡ register_of self }
    {
        match self {
            Pointer::Data => 27,
            Pointer::Code => 26,
        }
    }

    pub fn mask(self) -> u8
        ensures is { result ≡ mask_of self }
    {
        match self {
            Pointer::Data => 25,
            Pointer::Code => 23,
        }
    }

    pub fn base(self) -> u8
        ensures is { result ≡ base_of self }
    {
        match self {
            Pointer::Data => 24,
            Pointer::Code => 22,
        }
    }
}

pub(crate) fn dedicated(register: u8) -> bool
    ensures { result ≡ is_dedicated register }
{
    22 <= register && register <= 27
}

// Whether a store may have a base.
pub(crate) fn may_store(register: u8) -> bool
    ensures { result ≡ may_store register }
{
    register == Pointer::Data.register()
}
