ghost use Rattle.std.specs.Prelude.{◌≡◌, IfOk};
ghost use Rattle.refusal.specs.Told.{told_in};
ghost use Rattle.code_check.specs.Verdicts.{checked};
ghost use Rattle.yard_steps.specs.Model.{new_yard};
ghost use Rattle.yard_steps.specs.Calls.{admitted, opened, called_from, replied, cut_off, register_of};
ghost use Rattle.yard.specs.Yards.{seen, told_back};

use crate::inners::Inner;
use crate::pendings::Pending;
use crate::yards::Yard;
use refusal::Refusal;
use std::alloc::{AllocError, Global};

impl<'a> Yard<'a> {
    // A yard over a code store and a memory of so many bytes, with no domain, entry or pending call.
    pub fn new(heap: Global, store: &'a [u32], size: u32) -> Result<Yard<'a>, AllocError>
        ensures is { IfOk result (λ y. seen y ≡ new_yard store.now size) }
    {
        let inner = Inner::new(heap, store, size)?;
        Ok(Yard { inner })
    }

    // Whether the window of 2^m bytes from `base` may be admitted.
    pub fn check(&self, base: u32, m: u32) -> Result<(), Refusal>
        ensures is { told_in result ≡ checked (seen self.now).store base m }
    {
        code_check::check(self.inner.store(), base, m)
    }

    // A domain with the window of 2^m bytes from `base` and the segment of 2^k bytes from `data`. Of the registers that it is
    // given, x0 and the dedicated ones are overwritten. Answers its number.
    pub fn admit(
        &mut self,
        registers: [u32; 32],
        base: u32,
        m: u32,
        data: u32,
        k: u32,
    ) -> Result<usize, Refusal>
        ensures is { (seen self.new, told_in result) ≡ admitted (seen self.old) registers base m «data» k }
    {
        self.inner.admit(registers, base, m, data, k)
    }

    // The gate leads to an offset of the domain's window from now on.
    pub fn open(&mut self, gate: u32, domain: usize, offset: u32) -> Result<(), Refusal>
        ensures is { (seen self.new, told_in result) ≡ opened (seen self.old) gate domain offset }
    {
        self.inner.open(gate, domain, offset)
    }

    // The host enters a gate: its domain gets seven numbers in x10 to x16, and is the only active one.
    pub fn call(&mut self, gate: u32, values: [u32; 7]) -> Result<(), Refusal>
        ensures is { (seen self.new, told_in result) ≡ called_from (seen self.old) gate values }
    {
        self.inner.call(gate, values)
    }

    // The waiting domain gets a number in x10 and is active. A refused reply hands the pending call back. No `map_err`: each way
    // has to use the pending call up.
    pub fn reply(&mut self, pending: Pending, value: u32) -> Result<(), (Refusal, Pending)>
        ensures is { (seen self.new, told_back result) ≡ replied (seen self.old) value }
    {
        match self.inner.reply(value) {
            Ok(()) => {
                pending.spend();
                Ok(())
            }
            Err(refusal) => Err((refusal, pending)),
        }
    }

    // Every active domain stops.
    pub fn cut(&mut self) -> Result<(), Refusal>
        ensures is { (seen self.new, told_in result) ≡ cut_off (seen self.old) }
    {
        self.inner.cut()
    }

    // What a register of a domain holds.
    pub fn register(&self, domain: usize, number: u32) -> Result<u32, Refusal>
        ensures is { told_in result ≡ register_of (seen self.now) domain number }
    {
        self.inner.read_register(domain, number)
    }

    // Ends a yard whose host call will not be answered, and gives its code store back.
    pub fn end(self, pending: Pending) -> &'a [u32]
        ensures is { result.now ≡ (seen self.entry).store }
    {
        pending.spend();
        self.inner.into_store()
    }
}
