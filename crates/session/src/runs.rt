// A run of a yard over the memory of a script.
ghost use Rattle.std.specs.Prelude.{◌≡◌};
ghost use Rattle.memories.specs.Layout.{counted, woven};
ghost use Rattle.buffers.specs.Bytes.{bytes_of};
ghost use Rattle.policy.specs.Choice.{any_allows};
ghost use Rattle.yard_steps.specs.Calls.{running};
ghost use Rattle.yard.specs.Yards.{seen, answered_by, Tokened};

use buffers::Buffers;
use memories::flat::Flat;
use memories::lanes::Lanes;
use policy::any::AnyPolicy;
use refusal::Refusal;
use yard::{Outcome, Yard};

pub(crate) fn run(
    buffers: &mut Buffers,
    yard: &mut Yard,
    policy: &AnyPolicy,
    budget: u32,
) -> Result<Outcome, Refusal>
    ensures is { answered_by (seen yard.new) (bytes_of buffers.new) result ≡ running (any_allows policy.now) budget (seen yard.old) (bytes_of buffers.old) }
    ensures token { Tokened result }
{
    match buffers {
        Buffers::Flat(buffer) => run_flat(buffer, yard, policy, budget),
        Buffers::Lanes(p, q, r, s) => run_lanes(p, q, r, s, yard, policy, budget),
    }
}

// This and the next stand apart, since of a `Vec` that `run` itself lends to a memory the check loses what it holds afterwards.
fn run_flat(
    buffer: &mut [u8],
    yard: &mut Yard,
    policy: &AnyPolicy,
    budget: u32,
) -> Result<Outcome, Refusal>
    ensures is { answered_by (seen yard.new) (counted buffer.new) result ≡ running (any_allows policy.now) budget (seen yard.old) (counted buffer.old) }
    ensures token { Tokened result }
{
    yard.run(&mut Flat::new(buffer), policy, budget)
}

fn run_lanes<'a>(
    lane0: &'a mut [u8],
    lane1: &'a mut [u8],
    lane2: &'a mut [u8],
    lane3: &'a mut [u8],
    yard: &mut Yard,
    policy: &AnyPolicy,
    budget: u32,
) -> Result<Outcome, Refusal>
    ensures is { answered_by (seen yard.new) (woven lane0.new lane1.new lane2.new lane3.new) result ≡ running (any_allows policy.now) budget (seen yard.old) (woven lane0.old lane1.old lane2.old lane3.old) }
    ensures token { Tokened result }
{
    let mut memory = Lanes {
        lane0,
        lane1,
        lane2,
        lane3,
    };
    yard.run(&mut memory, policy, budget)
}
