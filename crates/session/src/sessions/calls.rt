// One command.
ghost use Rattle.std.specs.Prelude.{◌≡◌, ℕ, Bool, true, List, is_some, IfOk, Some, None, OnOk};
ghost use Rattle.std.specs.Option.{option_map};
ghost use Rattle.refusal.specs.Told.{told_in};
ghost use Rattle.yard_steps.specs.Model.{new_yard};
ghost use Rattle.yard_script.specs.declared.commands.Command.TheVariants as cmd;
ghost use Rattle.session.specs.Said.{plain};
ghost use Rattle.session.specs.Said as said;
ghost use Rattle.session.specs.Performed.{performed, under_yard};
ghost use Rattle.session.specs.Views.{state_of, view, Aside};
ghost use Rattle.session.specs.Holds.{Vacant, holding, reported};

use crate::answers::Answer;
use crate::runs::run;
use crate::sessions::Session;
use buffers::Buffers;
use code_check::check;
use policy::Policy;
use policy::any::AnyPolicy;
use policy::rights::Rights;
use policy::rings::Rings;
use refusal::Refusal;
use rv32i::{decode, encode};
use std::alloc::{AllocError, Global};
use yard::{Outcome, Pending, Yard};
use yard_script::Command;
use yard_steps::Report;

impl<'a> Session<'a> {
    pub(crate) fn new(
        heap: Global,
        memory: Buffers,
        policy: AnyPolicy,
        store: &'a [u32],
        size: u32,
    ) -> Result<Session<'a>, AllocError>
        ensures is { IfOk result (λ s. ((code : List ℕ) (under : Bool) → view s code under ≡ state_of memory policy code under (new_yard store.now size))) }
    {
        let yard = Yard::new(heap, store, size)?;
        Ok(Session {
            memory,
            policy,
            yard,
            pending: None,
        })
    }

    // Ends the session. A pending call ends with its yard.
    pub(crate) fn finish(self) -> (Buffers, AnyPolicy)
        ensures is { result ≡ (self.entry.memory, self.entry.policy) }
    {
        let Session {
            memory,
            policy,
            yard,
            pending,
        } = self;
        if let Some(pending) = pending {
            yard.end(pending);
        }
        (memory, policy)
    }

    // A new yard over the store. A pending call ends with the old one.
    pub(crate) fn renew(
        &mut self,
        heap: Global,
        store: &'a [u32],
        size: u32,
    ) -> Result<(), AllocError>
        ensures is { OnOk result (((under : Bool) → view self.new store.now true ≡ under_yard (view self.old store.now under) size)) }
    {
        let fresh = Yard::new(heap, store, size)?;
        let old = std::mem::replace(&mut self.yard, fresh);
        if let Some(pending) = self.pending.take() {
            old.end(pending);
        }
        Ok(())
    }

    // A command that changes neither the code store nor which yard stands over it.
    pub(crate) fn answer(
        &mut self,
        heap: Global,
        code: &[u32],
        command: &Command,
    ) -> Result<Option<Answer>, AllocError>
        requires { Aside command.now }
        ensures is { IfOk result (λ a. ((under : Bool) → (view self.new code.now under, option_map plain a) ≡ performed command.now (view self.old code.now under))) }
    {
        match command {
            Command::Decode(word) => Ok(Some(Answer::Decoded(decode(*word)))),
            Command::Encode(instruction) => Ok(Some(Answer::Encoded(encode(*instruction)))),
            Command::FlatMemory(size) => {
                self.memory = Buffers::flat(heap, *size)?;
                Ok(None)
            }
            Command::LanesMemory(lengths) => {
                self.memory = Buffers::lanes(heap, *lengths)?;
                Ok(None)
            }
            Command::Peek { address, count } => {
                Ok(Some(Answer::Peeked(self.memory.peek(heap, *address, *count)?)))
            }
            Command::Rights(rows) => {
                self.policy = AnyPolicy::Rights(Rights { rows: *rows });
                Ok(None)
            }
            Command::Rings { domains, gates } => {
                self.policy = AnyPolicy::Rings(Rings {
                    domains: *domains,
                    gates: *gates,
                });
                Ok(None)
            }
            Command::May { domain, gate } => {
                Ok(Some(Answer::May(self.policy.allows(*domain as usize, *gate))))
            }
            // Its words have not been read, so there are none to append.
            Command::CodeFile(_) => Ok(None),
            Command::Check { base, m } => Ok(Some(Answer::Checked(check(code, *base, *m)))),
            Command::Admit {
                registers,
                base,
                m,
                data,
                k,
            } => {
                let result = self.yard.admit(*registers, *base, *m, *data, *k);
                Ok(Some(Answer::Admitted(result)))
            }
            Command::Open {
                gate,
                domain,
                offset,
            } => {
                let result = self.yard.open(*gate, *domain as usize, *offset);
                Ok(Some(Answer::Opened(result)))
            }
            Command::Call { gate, values } => {
                Ok(Some(Answer::Called(self.yard.call(*gate, *values))))
            }
            Command::Run(budget) => Ok(Some(Answer::Ran(self.run(*budget)))),
            Command::Reply(value) => Ok(Some(Answer::Replied(self.reply(*value)))),
            Command::Cut => Ok(Some(Answer::Cut(self.yard.cut()))),
            Command::Register { domain, number } => {
                let result = self.yard.register(*domain as usize, *number);
                Ok(Some(Answer::Register(result)))
            }
            // Whoever has the code store does these.
            Command::Code(_) | Command::Yard(_) => unreachable(),
        }
    }

    fn run(&mut self, budget: u32) -> Result<Report, Refusal>
        ensures is { (code : List ℕ) (under : Bool) → (view self.new code under, Some (said.Ran (told_in result))) ≡ performed (cmd.Run budget) (view self.old code under) }
    {
        let outcome = run(&mut self.memory, &mut self.yard, &self.policy, budget);
        hold(&mut self.pending, outcome)
    }

    fn reply(&mut self, value: u32) -> Result<(), Refusal>
        ensures is { (code : List ℕ) (under : Bool) → (view self.new code under, Some (said.Replied (told_in result))) ≡ performed (cmd.Reply value) (view self.old code under) }
    {
        let Some(pending) = self.pending.take() else {
            return Err(Refusal::NonePending);
        };
        match self.yard.reply(pending, value) {
            Ok(()) => Ok(()),
            // The yard waits for the answer to this call.
            Err(_) => unreachable(),
        }
    }
}

// Keeps the call that an outcome gives out.
fn hold(pending: &mut Option<Pending>, outcome: Result<Outcome, Refusal>) -> Result<Report, Refusal>
    requires { Vacant pending.old outcome }
    ensures is { result ≡ reported outcome }
    ensures held { is_some pending.new ≡ holding (is_some pending.old) outcome }
{
    match outcome? {
        Outcome::Ended(report) => Ok(report),
        Outcome::Asked(report, call) => match pending.replace(call) {
            Some(_) => unreachable(),
            None => Ok(report),
        },
    }
}
