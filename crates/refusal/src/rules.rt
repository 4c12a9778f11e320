ghost use Rattle.std.specs.Prelude.{◌≡◌};
ghost use Rattle.refusal.specs.Told.{rule_number};

// The rules that the words of a window keep.
#[derive(Clone, Copy)]
pub enum Rule {
    // A word is RV32I.
    Decodes,
    // A store goes through the data pointer.
    StoreBase,
    // A JALR goes through the code pointer, with offset 0.
    JumpBase,
    // A dedicated register is written by mask words and base words alone.
    Dedicated,
    // A mask word is followed by the base word of its register.
    Paired,
    // A branch or a JAL goes to a word of the window.
    Target,
    // The last word is JAL, JALR or EBREAK.
    Ending,
}

impl Rule {
    // The number by which the rule is known outside; where a word breaks several, the lowest is told.
    pub fn number(self) -> u8
        ensures is { result ≡ rule_number self }
    {
        match self {
            Rule::Decodes => 1,
            Rule::StoreBase => 2,
            Rule::JumpBase => 3,
            Rule::Dedicated => 4,
            Rule::Paired => 5,
            Rule::Target => 6,
            Rule::Ending => 7,
        }
    }
}
