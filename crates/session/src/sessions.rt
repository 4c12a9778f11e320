ghost use Rattle.std.specs.Prelude.{◌≡◌, is_some};
ghost use Rattle.yard.specs.Yards.{seen};

use buffers::Buffers;
use policy::any::AnyPolicy;
use yard::{Pending, Yard};

pub mod calls;

// What a script has built up so far, but for the code store, which the yard borrows. A pending call is held exactly
// while the yard waits for its answer.
pub struct Session<'a> {
    memory: Buffers,
    policy: AnyPolicy,
    yard: Yard<'a>,
    pending: Option<Pending>,
    ghost held: { is_some pending ≡ (seen yard).pending },
}
