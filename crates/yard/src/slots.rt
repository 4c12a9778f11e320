ghost use Rattle.std.specs.Prelude.{◌≡◌, ◌<◌};

// The number of a place in the table of domains.
#[derive(Clone, Copy)]
pub struct Slot {
    pub number: usize,
    ghost known: { number < 8 },
}

impl Default for Slot {
    ghost is_default = { λ s. s.number ≡ 0 };

    fn default() -> Slot {
        Slot { number: 0 }
    }
}
