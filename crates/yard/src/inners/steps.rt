// One step of the current domain.
ghost use Rattle.std.specs.Prelude.{◌≡◌, ℕ, ◌<◌, Bool, false, List, Some};
ghost use Rattle.machine.specs.Registers.{value_of};
ghost use Rattle.machine.specs.Stops.{stop_row};
ghost use Rattle.machine.specs.declared.effects.Effect.TheVariants as effect;
ghost use Rattle.yard_steps.specs.Model.{at, chained, current, gate_at};
ghost use Rattle.yard_steps.specs.Steps.{told, rest, ending, halted, hosted, returned_to, gated, called, done, stepped};
ghost use Rattle.yard.specs.Views.{view, lead_to, Ready, afterwards};

use crate::accesses::{load, store};
use crate::entries::Entry;
use crate::inners::Inner;
use crate::slots::Slot;
use machine::{Datum, Effect, Stop, next_pc};
use memory::Memory;
use policy::Policy;
use rv32i::LoadOp;
use yard_steps::{Ending, Event, Reason};

// `Ready`, which five functions ask for, follows from the invariant of `Yard`. That invariant does not hold in the middle of a
// step, so that no type of this layer has it.
impl<'a> Inner<'a> {
    // The current domain, if there is one, gets two numbers.
    fn tell(&mut self, first: u32, second: u32)
        ensures { view self.new ≡ told (view self.old).chain first second (view self.old) }
    {
        if let Some(i) = self.first() {
            self.take_back(i, first, second);
        }
    }

    // The current domain leaves the chain, and its caller, if any, gets two numbers.
    fn back(&mut self, first: u32, second: u32)
        ensures { view self.new ≡ told (rest (view self.old).chain) first second (chained (view self.old) (rest (view self.old).chain) false) }
    {
        self.pop();
        self.tell(first, second);
    }

    fn halt(&mut self, i: Slot, stop: Stop) -> Option<Ending>
        ensures { (bs : List ℕ) → afterwards (view self.new) bs result ≡ halted stop i.number (view self.old) bs }
    {
        let cause = u32::from(stop.number());
        let ending = Ending {
            reason: Reason::Stopped,
            domain: i.number,
            pc: self.domain(i).pc(),
            first: cause,
            second: stop.detail(),
        };
        self.meet(i, Event::Stop);
        self.back(u32::MAX, cause);
        Some(ending)
    }

    fn ending(&self, reason: Reason, i: Slot) -> Ending
        ensures { result ≡ ending reason i.number (view self.now) }
    {
        Ending {
            reason,
            domain: i.number,
            pc: self.domain(i).pc(),
            first: self.domain(i).register(10),
            second: self.domain(i).register(11),
        }
    }

    fn host(&mut self, i: Slot) -> Option<Ending>
        ensures { (bs : List ℕ) → afterwards (view self.new) bs result ≡ hosted i.number (view self.old) bs }
    {
        let ending = self.ending(Reason::Host, i);
        self.leave(i, Event::Host);
        self.ask(true);
        Some(ending)
    }

    fn come_back(&mut self, i: Slot) -> Option<Ending>
        ensures { (bs : List ℕ) → afterwards (view self.new) bs result ≡ returned_to (rest (view self.old).chain) i.number (view self.old) bs }
    {
        let ending = self.ending(Reason::Finished, i);
        self.leave(i, Event::Return);
        self.pop();
        match self.first() {
            Some(caller) => {
                self.take_back(caller, ending.first, ending.second);
                None
            }
            None => Some(ending),
        }
    }

    fn through_gate<P: Policy>(&mut self, policy: &P, i: Slot, gate: u32) -> Option<Ending>
        requires { Ready i.number (view self.old) }
        ensures { (bs : List ℕ) → afterwards (view self.new) bs result ≡ gated (P.Policy.allowed policy.now) (gate_at (view self.old) gate) gate i.number (view self.old) bs }
    {
        match self.gate(gate) {
            None => self.halt(i, Stop::NoGate { gate }),
            Some(entry) => self.call_entry(policy, i, gate, entry),
        }
    }

    fn call_entry<P: Policy>(
        &mut self,
        policy: &P,
        i: Slot,
        gate: u32,
        entry: Entry,
    ) -> Option<Ending>
        requires { Ready i.number (view self.old) }
        ensures { (bs : List ℕ) → afterwards (view self.new) bs result ≡ gated (P.Policy.allowed policy.now) (Some (lead_to entry)) gate i.number (view self.old) bs }
    {
        if !policy.allows(i.number, gate) {
            return self.halt(i, Stop::Forbidden { gate });
        }
        if !self.domain(entry.domain).is_idle() {
            return self.halt(i, Stop::Busy { gate });
        }
        let values = self.domain(i).arguments();
        self.jump(i, next_pc(self.domain(i).pc()));
        self.enter(entry, values);
        self.push(entry.domain);
        None
    }

    fn environment_call<P: Policy>(&mut self, policy: &P, i: Slot) -> Option<Ending>
        requires { Ready i.number (view self.old) }
        ensures { (bs : List ℕ) → afterwards (view self.new) bs result ≡ called (P.Policy.allowed policy.now) i.number (view self.old) bs }
    {
        let gate = self.domain(i).register(17);
        if gate == 0 {
            self.host(i)
        } else if gate == 31 {
            self.come_back(i)
        } else {
            self.through_gate(policy, i, gate)
        }
    }

    fn read<M: Memory>(
        &mut self,
        memory: &M,
        i: Slot,
        op: LoadOp,
        rd: u8,
        address: u32,
    ) -> Option<Ending>
        ensures { (A : ℕ → ℕ → Bool) → afterwards (view self.new) (M.Memory.bytes memory.now) result ≡ done A i.number (effect.Read op rd address) (view self.old) (M.Memory.bytes memory.now) }
    {
        if !self.is_mapped(address) {
            return self.halt(i, Stop::Unmapped { address });
        }
        let value = load(memory, op, address);
        self.write(i, rd, value, next_pc(self.domain(i).pc()));
        None
    }

    fn save<M: Memory>(
        &mut self,
        memory: &mut M,
        i: Slot,
        address: u32,
        datum: Datum,
    ) -> Option<Ending>
        ensures is { (A : ℕ → ℕ → Bool) → afterwards (view self.new) (M.Memory.bytes memory.new) result ≡ done A i.number (effect.Write address datum) (view self.old) (M.Memory.bytes memory.old) }
        ensures lent { M.Memory.lent memory.new ≡ M.Memory.lent memory.old }
    {
        if !self.is_mapped(address) {
            return self.halt(i, Stop::Unmapped { address });
        }
        store(memory, address, datum);
        self.jump(i, next_pc(self.domain(i).pc()));
        None
    }

    fn apply<M: Memory, P: Policy>(
        &mut self,
        memory: &mut M,
        policy: &P,
        i: Slot,
        effect: Effect,
    ) -> Option<Ending>
        requires { Ready i.number (view self.old) }
        ensures is { afterwards (view self.new) (M.Memory.bytes memory.new) result ≡ done (P.Policy.allowed policy.now) i.number effect (view self.old) (M.Memory.bytes memory.old) }
        ensures lent { M.Memory.lent memory.new ≡ M.Memory.lent memory.old }
    {
        match effect {
            Effect::Set { rd, value } => {
                self.write(i, rd, value, next_pc(self.domain(i).pc()));
                None
            }
            Effect::Read { op, rd, address } => self.read(memory, i, op, rd, address),
            Effect::Write { address, datum } => self.save(memory, i, address, datum),
            Effect::Link { rd, link, target } => {
                self.write(i, rd, link, target);
                None
            }
            Effect::Jump { target } => {
                self.jump(i, target);
                None
            }
            Effect::Next => {
                self.jump(i, next_pc(self.domain(i).pc()));
                None
            }
            Effect::Call => self.environment_call(policy, i),
            Effect::Stop(stop) => self.halt(i, stop),
        }
    }

    pub fn step<M: Memory, P: Policy>(&mut self, memory: &mut M, policy: &P) -> Option<Ending>
        requires { Ready (current (view self.old)) (view self.old) }
        ensures is { afterwards (view self.new) (M.Memory.bytes memory.new) result ≡ stepped (P.Policy.allowed policy.now) (view self.old) (M.Memory.bytes memory.old) }
        ensures lent { M.Memory.lent memory.new ≡ M.Memory.lent memory.old }
    {
        let i = self.current();
        match self.fetch(self.domain(i).pc()) {
            Ok(instruction) => {
                let effect = self.domain(i).effect(instruction);
                self.apply(memory, policy, i, effect)
            }
            Err(stop) => self.halt(i, stop),
        }
    }
}
