ghost use Rattle.std.specs.Prelude.{Some};
ghost use Rattle.refusal.specs.Told.{told};
ghost use Rattle.refusal.specs.Spelled.{spelled};

use crate::refusals::Refusal;
use crate::values::Values;
use std::fmt;

// The number and the values, as `7 15 5 0`.
impl fmt::Display for Refusal {
    ghost output = { λ x. Some (spelled (told x)) };

    fn fmt<W: fmt::Write>(&self, f: &mut fmt::Formatter<W>) -> fmt::Result {
        let number = self.number();
        match self.values() {
            Values::Empty => write!(f, "{number}"),
            Values::One(a) => write!(f, "{number} {a}"),
            Values::Two(a, b) => write!(f, "{number} {a} {b}"),
            Values::Three(a, b, c) => write!(f, "{number} {a} {b} {c}"),
        }
    }
}
