// The parts of a yard, each by what it stands for in the model.
ghost use Rattle.std.specs.Prelude.{◌≡◌, ◌<◌, false, [], ◌∷◌, map, take, length, option_map, IfOk};
ghost use Rattle.segment.specs.Rows.{row};
ghost use Rattle.machine.specs.Registers.{written};
ghost use Rattle.yard_steps.specs.Model.{new_yard, at, put, chained, current, gate_at, mapped, some_active};
ghost use Rattle.yard_steps.specs.Steps.{turned, after, fetched, behind, entered, rest};
ghost use Rattle.yard_steps.specs.Calls.{near, with_domain, with_entry, answered};
ghost use Rattle.yard.specs.Shapes.{shape, lead, number_of, callers, next_in, pointed};
ghost use Rattle.yard.specs.Views.{view, lead_to, without_active};

use crate::codes::Code;
use crate::domains::Domain;
use crate::entries::Entry;
use crate::inners::Inner;
use crate::slots::Slot;
use arrayvec::ArrayVec;
use machine::Stop;
use rv32i::Instruction;
use segment::Segment;
use std::alloc::{AllocError, Global};
use yard_steps::Event;

// The last of a chain, if there is one.
fn last(chain: &ArrayVec<Slot, 8>) -> Option<Slot>
    ensures { option_map number_of result ≡ next_in (callers chain.now.items) }
{
    chain.last().copied()
}

// Something happens to every domain.
fn meet_all(domains: &mut [Domain; 8], event: Event)
    ensures { map shape domains.new ≡ map (after event) (map shape domains.old) }
{
    for domain in domains.iter_mut() {
        domain.meet(event);
    }
}

impl<'a> Inner<'a> {
    pub fn new(heap: Global, store: &'a [u32], size: u32) -> Result<Inner<'a>, AllocError>
        ensures { IfOk result (λ y. view y ≡ new_yard store.now size) }
    {
        let code = Code::new(heap, store)?;
        Ok(Inner {
            code,
            size,
            domains: [Domain::nobody(); 8],
            count: 0,
            gates: [None; 31],
            chain: ArrayVec::new(),
            current: Slot::default(),
            pending: false,
        })
    }

    pub fn store(&self) -> &[u32]
        ensures { result.now ≡ (view self.now).store }
    {
        self.code.store()
    }

    pub fn into_store(self) -> &'a [u32]
        ensures { result.now ≡ (view self.entry).store }
    {
        self.code.into_store()
    }

    pub fn size(&self) -> u32
        ensures { result ≡ (view self.now).size }
    {
        self.size
    }

    pub fn is_pending(&self) -> bool
        ensures { result ≡ (view self.now).pending }
    {
        self.pending
    }

    pub fn fetch(&self, pc: u32) -> Result<&Instruction, Stop>
        ensures { pointed result ≡ fetched (view self.now).store pc }
    {
        self.code.fetch(pc)
    }

    // The current domain; the first of the table where there is none.
    pub fn current(&self) -> Slot
        ensures { result.number ≡ current (view self.now) }
    {
        self.current
    }

    // The current domain, if there is one.
    pub fn first(&self) -> Option<Slot>
        ensures { option_map number_of result ≡ next_in (view self.now).chain }
    {
        last(&self.chain)
    }

    pub fn domain(&self, i: Slot) -> &Domain
        ensures { shape result.now ≡ at (view self.now) i.number }
    {
        &self.domains[i.number]
    }

    // The domains that are there.
    fn present(&self) -> &[Domain]
        ensures { result.now ≡ take self.now.count self.now.domains }
    {
        &self.domains[..self.count]
    }

    // Whether the byte at an address is one of the segment of some domain.
    pub fn is_mapped(&self, address: u32) -> bool
        ensures { result ≡ mapped (view self.now) address }
    {
        self.present().iter().any(|domain| domain.holds(address))
    }

    // Whether the guard zone is missing between a segment and that of some domain.
    pub fn is_near(&self, segment: Segment) -> bool
        ensures { result ≡ near (view self.now) (row segment) }
    {
        self.present()
            .iter()
            .any(|domain| !segment.apart(domain.segment()))
    }

    pub fn has_active(&self) -> bool
        ensures { result ≡ some_active (view self.now) }
    {
        self.present().iter().any(|domain| domain.is_active())
    }

    // Where a gate leads, if it is one and open.
    pub fn gate(&self, gate: u32) -> Option<Entry>
        ensures { lead result ≡ gate_at (view self.now) gate }
    {
        self.gates.get(gate as usize).copied().flatten()
    }

    // Each change of a domain is a function here, and takes the table by itself first: a call on `self.domains[i]` in place gets no
    // proof, nor does a `&mut` of a row that is handed out.
    pub fn write(&mut self, i: Slot, rd: u8, value: u32, pc: u32)
        ensures { view self.new ≡ put (view self.old) i.number (turned (at (view self.old) i.number) (written (at (view self.old) i.number).registers rd value) pc) }
    {
        let domains = &mut self.domains;
        domains[i.number].write(rd, value, pc);
    }

    pub fn jump(&mut self, i: Slot, pc: u32)
        ensures { view self.new ≡ put (view self.old) i.number (turned (at (view self.old) i.number) (at (view self.old) i.number).registers pc) }
    {
        let domains = &mut self.domains;
        domains[i.number].jump(pc);
    }

    pub fn leave(&mut self, i: Slot, event: Event)
        ensures { view self.new ≡ put (view self.old) i.number (after event (behind i.number (view self.old))) }
    {
        let domains = &mut self.domains;
        domains[i.number].leave(event);
    }

    pub fn meet(&mut self, i: Slot, event: Event)
        ensures { view self.new ≡ put (view self.old) i.number (after event (at (view self.old) i.number)) }
    {
        let domains = &mut self.domains;
        domains[i.number].meet(event);
    }

    pub fn take_back(&mut self, i: Slot, first: u32, second: u32)
        ensures { view self.new ≡ put (view self.old) i.number (turned (at (view self.old) i.number) (written (written (at (view self.old) i.number).registers 10 first) 11 second) (at (view self.old) i.number).pc) }
    {
        let domains = &mut self.domains;
        domains[i.number].take_back(first, second);
    }

    pub fn enter(&mut self, entry: Entry, values: [u32; 7])
        ensures { view self.new ≡ put (view self.old) entry.domain.number (entered values (lead_to entry) (at (view self.old) entry.domain.number)) }
    {
        let domains = &mut self.domains;
        domains[entry.domain.number].enter(values, entry.pc);
    }

    pub fn answer(&mut self, i: Slot, value: u32)
        ensures { view self.new ≡ put (view self.old) i.number (answered value (at (view self.old) i.number)) }
    {
        let domains = &mut self.domains;
        domains[i.number].answer(value);
    }

    // The current domain leaves the chain.
    pub fn pop(&mut self)
        ensures { view self.new ≡ chained (view self.old) (rest (view self.old).chain) false }
    {
        self.chain.pop();
        self.current = last(&self.chain).unwrap_or_default();
        self.pending = false;
    }

    // A domain becomes the current one.
    pub fn push(&mut self, i: Slot)
        requires { length (view self.old).chain < 8 }
        ensures { view self.new ≡ chained (view self.old) (i.number ∷ (view self.old).chain) false }
    {
        self.chain.push(i);
        self.current = i;
        self.pending = false;
    }

    // A domain becomes the only one on the chain.
    pub fn begin(&mut self, i: Slot)
        ensures { view self.new ≡ chained (view self.old) (i.number ∷ []) false }
    {
        self.chain.clear();
        self.chain.push(i);
        self.current = i;
        self.pending = false;
    }

    // A host call is pending, or no longer.
    pub fn ask(&mut self, pending: bool)
        ensures { view self.new ≡ chained (view self.old) (view self.old).chain pending }
    {
        self.pending = pending;
    }

    // A domain more.
    pub fn add(&mut self, domain: Domain)
        requires { (view self.old).count < 8 }
        ensures { view self.new ≡ with_domain (view self.old) (shape domain) }
    {
        self.domains[self.count] = domain;
        self.count += 1;
    }

    pub fn set_gate(&mut self, gate: u32, entry: Entry)
        requires { gate < 31 }
        ensures { view self.new ≡ with_entry (view self.old) gate (lead_to entry) }
    {
        self.gates[gate as usize] = Some(entry);
    }

    // Every active domain stops.
    pub fn stop_all(&mut self)
        ensures { view self.new ≡ without_active (view self.old) }
    {
        meet_all(&mut self.domains, Event::Cut);
        self.chain.clear();
        self.current = Slot::default();
        self.pending = false;
    }
}
