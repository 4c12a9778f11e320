// The calls of a yard, before what they keep.
ghost use Rattle.std.specs.Prelude.{◌≡◌, ◌<◌, Some};
ghost use Rattle.refusal.specs.Told.{told_in};
ghost use Rattle.yard_steps.specs.Model.{at};
ghost use Rattle.yard_steps.specs.Calls.{gate_fits, admission, admitted, opened, through_gate, called_from, replied, cut_off, register_of};
ghost use Rattle.yard.specs.Views.{view, lead_to, shaped_in};

use crate::domains::Domain;
use crate::entries::Entry;
use crate::inners::Inner;
use crate::slots::Slot;
use code_check::{check, window};
use domain::start;
use refusal::Refusal;
use segment::Segment;

impl<'a> Inner<'a> {
    // The domain that is to be admitted.
    fn admission(
        &self,
        registers: [u32; 32],
        base: u32,
        m: u32,
        data: u32,
        k: u32,
    ) -> Result<Domain, Refusal>
        ensures { shaped_in result ≡ admission (view self.now) registers base m «data» k }
    {
        if self.count >= 8 {
            return Err(Refusal::Crowded);
        }
        let _words = window(self.store(), base, m)?;
        let segment = Segment::new(data, k, self.size)?;
        if self.is_near(segment) {
            return Err(Refusal::SegmentNear);
        }
        check(self.store(), base, m)?;
        let registers = start(registers, base, m, segment)?;
        Ok(Domain::fresh(registers, base, m, segment))
    }

    pub fn admit(
        &mut self,
        registers: [u32; 32],
        base: u32,
        m: u32,
        data: u32,
        k: u32,
    ) -> Result<usize, Refusal>
        ensures { (view self.new, told_in result) ≡ admitted (view self.old) registers base m «data» k }
    {
        let number = self.count;
        let domain = self.admission(registers, base, m, data, k)?;
        self.add(domain);
        Ok(number)
    }

    pub fn open(&mut self, gate: u32, domain: usize, offset: u32) -> Result<(), Refusal>
        ensures { (view self.new, told_in result) ≡ opened (view self.old) gate domain offset }
    {
        if !is_gate(gate) {
            return Err(Refusal::NoGate);
        }
        if self.gate(gate).is_some() {
            return Err(Refusal::GateTaken);
        }
        if domain >= self.count {
            return Err(Refusal::NoDomain);
        }
        let domain = Slot { number: domain };
        if offset % 4 != 0 || offset >= self.domain(domain).window_size() {
            return Err(Refusal::EntryOffset);
        }
        let pc = self.domain(domain).address(offset);
        self.set_gate(gate, Entry { domain, pc });
        Ok(())
    }

    pub fn call(&mut self, gate: u32, values: [u32; 7]) -> Result<(), Refusal>
        ensures { (view self.new, told_in result) ≡ called_from (view self.old) gate values }
    {
        if !is_gate(gate) {
            return Err(Refusal::NoGate);
        }
        let entry = self.gate(gate).ok_or(Refusal::GateEmpty)?;
        self.call_through(entry, values)
    }

    fn call_through(&mut self, entry: Entry, values: [u32; 7]) -> Result<(), Refusal>
        ensures { (view self.new, told_in result) ≡ through_gate (Some (lead_to entry)) values (view self.old) }
    {
        if self.pending {
            return Err(Refusal::HostPending);
        }
        if self.has_active() {
            return Err(Refusal::DomainActive);
        }
        if self.domain(entry.domain).is_stopped() {
            return Err(Refusal::DomainStopped);
        }
        self.enter(entry, values);
        self.begin(entry.domain);
        Ok(())
    }

    pub fn reply(&mut self, value: u32) -> Result<(), Refusal>
        ensures { (view self.new, told_in result) ≡ replied (view self.old) value }
    {
        if !self.pending {
            return Err(Refusal::NonePending);
        }
        self.answer(self.current(), value);
        self.ask(false);
        Ok(())
    }

    pub fn cut(&mut self) -> Result<(), Refusal>
        ensures { (view self.new, told_in result) ≡ cut_off (view self.old) }
    {
        if self.pending {
            return Err(Refusal::HostPending);
        }
        if !self.has_active() {
            return Err(Refusal::NoneActive);
        }
        self.stop_all();
        Ok(())
    }

    pub fn read_register(&self, domain: usize, number: u32) -> Result<u32, Refusal>
        ensures { told_in result ≡ register_of (view self.now) domain number }
    {
        if domain >= self.count {
            return Err(Refusal::NoDomain);
        }
        if number > 31 {
            return Err(Refusal::NoRegister);
        }
        let domain = Slot { number: domain };
        Ok(self.domain(domain).register(number as u8))
    }
}

fn is_gate(gate: u32) -> bool
    ensures { result ≡ gate_fits gate }
{
    (1..=30).contains(&gate)
}
