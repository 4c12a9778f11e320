// Reports as text: the reason, the count, the domain, the pc and the two numbers, with blanks between.

ghost use Rattle.std.specs.Prelude.{Some};
ghost use Rattle.yard_steps.specs.Printed.{word, printed};

use crate::reports::{Reason, Report};
use std::fmt;

impl fmt::Display for Reason {
    ghost output = { λ r. Some (word r) };

    fn fmt<W: fmt::Write>(&self, f: &mut fmt::Formatter<W>) -> fmt::Result {
        f.write_str(match self {
            Reason::Host => "host",
            Reason::Stopped => "stopped",
            Reason::Finished => "finished",
            Reason::Spent => "spent",
        })
    }
}

impl fmt::Display for Report {
    ghost output = { λ r. Some (printed r) };

    fn fmt<W: fmt::Write>(&self, f: &mut fmt::Formatter<W>) -> fmt::Result {
        let Report {
            reason,
            count,
            domain,
            pc,
            first,
            second,
        } = *self;
        write!(f, "{reason} {count} {domain} {pc} {first} {second}")
    }
}
