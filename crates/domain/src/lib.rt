// What holds of a domain between two words: it stays in its window, and stores near its segment alone.
#![tactic(auto)]

ghost use Rattle.std.specs.Prelude.{◌≡◌};
ghost use Rattle.refusal.specs.Told.{told_in};
ghost use Rattle.segment.specs.Rows.{row};
ghost use Rattle.domain.specs.Confined.{started, Starts, Enters, Confines};

use code_check::{Pointer, code_mask};
use machine::set_register;
use refusal::Refusal;
use segment::Segment;

// The registers that a domain begins with. What begins so is confined, may be entered at any word of its window,
// and whatever its words do, it stays confined.
pub fn start(
    registers: [u32; 32],
    base: u32,
    m: u32,
    segment: Segment,
) -> Result<[u32; 32], Refusal>
    ensures is { told_in result ≡ started registers base m (row segment) }
    ensures starts { Starts }
    ensures enters { Enters }
    ensures confines { Confines }
{
    dedicate(registers, base, m, segment)
}

// Apart from `start`, so that a wrong register is refused in the code, before the proofs of the laws.
fn dedicate(registers: [u32; 32], base: u32, m: u32, segment: Segment) -> Result<[u32; 32], Refusal>
    ensures { told_in result ≡ started registers base m (row segment) }
{
    let code_mask = code_mask(m)?;
    let mut all = registers;
    all[0] = 0;
    set_register(&mut all, Pointer::Code.base(), base);
    set_register(&mut all, Pointer::Code.mask(), code_mask);
    set_register(&mut all, Pointer::Data.base(), segment.base());
    set_register(&mut all, Pointer::Data.mask(), segment.mask());
    set_register(&mut all, Pointer::Code.register(), base);
    set_register(&mut all, Pointer::Data.register(), segment.base());
    Ok(all)
}
