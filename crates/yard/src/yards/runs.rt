ghost use Rattle.std.specs.Prelude.{◌≡◌, ℕ, ◌<◌, Bool, false, List, length, None, Ok};
ghost use Rattle.yard_steps.specs.Calls.{run_refused, running};
ghost use Rattle.yard_steps.specs.Fence.{FencedRun};
ghost use Rattle.yard_steps.specs.Steps.{stepped, spent, ran};
ghost use Rattle.yard.specs.Views.{afterwards};
ghost use Rattle.yard.specs.Yards.{seen, GoesOn, ran_to, counted, answered_by, report_in, Tokened};

use crate::pendings::{Outcome, Pending};
use crate::yards::Yard;
use memory::Memory;
use policy::Policy;
use refusal::Refusal;
use yard_steps::{Ending, Reason, Report};

impl<'a> Yard<'a> {
    // The current domain runs, and whoever it calls, until it asks the host, stops, finishes, or has spent the budget.
    // Every step keeps to the fence.
    pub fn run<M: Memory, P: Policy>(
        &mut self,
        memory: &mut M,
        policy: &P,
        budget: u32,
    ) -> Result<Outcome, Refusal>
        ensures is { answered_by (seen self.new) (M.Memory.bytes memory.new) result ≡ running (P.Policy.allowed policy.now) budget (seen self.old) (M.Memory.bytes memory.old) }
        ensures lent { M.Memory.lent memory.new ≡ M.Memory.lent memory.old }
        ensures token { Tokened result }
        ensures fenced { ∥ FencedRun (P.Policy.allowed policy.now) budget (seen self.old) (M.Memory.bytes memory.old) ∥₁ }
    {
        if let Some(refusal) = self.run_refused(memory) {
            return Err(refusal);
        }
        Ok(outcome(self.run_on(memory, policy, budget)))
    }

    // Why a run is turned down, if it is: an `Option`, as the model has it, and its equation is that of the definition.
    fn run_refused<M: Memory>(&self, memory: &M) -> Option<Refusal>
        ensures { result ≡ run_refused (seen self.now) (M.Memory.bytes memory.now) }
    {
        if self.inner.is_pending() {
            return Some(Refusal::HostPending);
        }
        if !self.inner.has_active() {
            return Some(Refusal::NoneActive);
        }
        if memory.size() != self.inner.size() {
            return Some(Refusal::MemorySize);
        }
        None
    }

    // A `loop` that is left by `break` with the report as its value: the form that was asked for.
    fn run_on<M: Memory, P: Policy>(&mut self, memory: &mut M, policy: &P, budget: u32) -> Report
        requires { GoesOn (seen self.old) }
        ensures is { ran_to (seen self.new) (M.Memory.bytes memory.new) result ≡ ran (P.Policy.allowed policy.now) budget 0 (seen self.old) (M.Memory.bytes memory.old) }
        ensures lent { M.Memory.lent memory.new ≡ M.Memory.lent memory.old }
    {
        let mut count = 0;
        loop {
            if count == budget {
                break self.spent(count);
            }
            count += 1;
            if let Some(ending) = self.step(memory, policy) {
                break report(ending, count);
            }
        }
    }

    fn step<M: Memory, P: Policy>(&mut self, memory: &mut M, policy: &P) -> Option<Ending>
        requires { GoesOn (seen self.old) }
        ensures is { afterwards (seen self.new) (M.Memory.bytes memory.new) result ≡ stepped (P.Policy.allowed policy.now) (seen self.old) (M.Memory.bytes memory.old) }
        ensures lent { M.Memory.lent memory.new ≡ M.Memory.lent memory.old }
        ensures on { result ≡ None → GoesOn (seen self.new) }
    {
        self.inner.step(memory, policy)
    }

    fn spent(&self, count: u32) -> Report
        ensures { (bs : List ℕ) → ran_to (seen self.now) bs result ≡ spent count (seen self.now) bs }
    {
        let domain = self.inner.current();
        Report {
            reason: Reason::Spent,
            count,
            domain: domain.number,
            pc: self.inner.domain(domain).pc(),
            first: 0,
            second: 0,
        }
    }
}

// No `From`: the count comes beside the ending.
fn report(ending: Ending, count: u32) -> Report
    ensures { result ≡ counted ending count }
{
    Report {
        reason: ending.reason,
        count,
        domain: ending.domain,
        pc: ending.pc,
        first: ending.first,
        second: ending.second,
    }
}

fn outcome(report: Report) -> Outcome
    ensures is { report_in result ≡ report }
    ensures token { Tokened (Ok result) }
{
    match report.reason {
        Reason::Host => Outcome::Asked(report, Pending::new()),
        _ => Outcome::Ended(report),
    }
}
