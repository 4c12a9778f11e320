// The commands of a script, one after another. A yard borrows the code store, so the code grows up to the first `yard` and is
// fixed from there on.
ghost use Rattle.std.specs.Prelude.{◌≡◌, Bool, true, false, List, ◌∷◌, ◌++◌, map, IfOk, OnOk};
ghost use Rattle.yard_script.specs.declared.commands.Command.{Command as Line};
ghost use Rattle.session.specs.Said.{plain};
ghost use Rattle.session.specs.Performed.{no_rights, start, answers_of};
ghost use Rattle.session.specs.Views.{view, spoken, told, or_yard, following, Aside};

use crate::answers::Answer;
use crate::sessions::Session;
use buffers::Buffers;
use policy::any::AnyPolicy;
use policy::rights::Rights;
use std::alloc::{AllocError, Global};
use yard_script::Command;

// What the commands up to the first `yard` have built up and answered, with that yard's memory size and the commands after it.
#[derive(Drop)]
struct Ground<'c> {
    code: Vec<u32>,
    memory: Buffers,
    policy: AnyPolicy,
    answers: Vec<Answer>,
    yard: Option<(u32, &'c [Command])>,
}

// A session, and what it has answered so far.
struct Performance<'a> {
    heap: Global,
    session: Session<'a>,
    answers: Vec<Answer>,
}

// What the commands of a script answer. Only for want of memory there are no answers.
pub fn perform(heap: Global, commands: &[Command]) -> Result<Vec<Answer>, AllocError>
    ensures is { IfOk result (λ v. map plain v.items ≡ answers_of start commands.now) }
{
    let Ground {
        code,
        memory,
        policy,
        answers,
        yard,
    } = prepare_all(heap, commands)?;
    let Some((size, rest)) = yard else {
        return Ok(answers);
    };
    let store = code.as_slice();
    let session = Session::new(heap, memory, policy, store, size)?;
    let mut performance = Performance {
        heap,
        session,
        answers,
    };
    let result = performance.follow_all(store, rest);
    let (_, _, answers) = performance.finish();
    result?;
    Ok(answers)
}

fn prepare_all<'c>(heap: Global, commands: &'c [Command]) -> Result<Ground<'c>, AllocError>
    ensures is { IfOk result (λ g. spoken g.answers.items ++ following g.yard g.memory g.policy g.code.items ≡ answers_of start commands.now) }
{
    let none = [];
    let memory = Buffers::Flat(Vec::new(heap));
    let session = Session::new(heap, memory, no_rights(), &none, 0)?;
    let mut performance = Performance {
        heap,
        session,
        answers: Vec::new(heap),
    };
    let mut code = Vec::new(heap);
    let result = performance.prepare_all(&mut code, commands);
    let (memory, policy, answers) = performance.finish();
    let yard = result?;
    Ok(Ground {
        code,
        memory,
        policy,
        answers,
        yard,
    })
}

fn no_rights() -> AnyPolicy
    ensures is { result ≡ no_rights }
{
    AnyPolicy::Rights(Rights { rows: [0; 8] })
}

impl<'a> Performance<'a> {
    // The commands up to the first `yard`; of that, the size of its memories and the commands after it.
    fn prepare_all<'c>(
        &mut self,
        code: &mut Vec<u32>,
        commands: &'c [Command],
    ) -> Result<Option<(u32, &'c [Command])>, AllocError>
        ensures is { IfOk result (λ o. spoken self.new.answers.items ++ following o self.new.session.memory self.new.session.policy code.new.items ≡ told self.old code.old.items false commands.now) }
    {
        // With the index, since it tells which commands are left.
        for (i, command) in commands.iter().enumerate() {
            if let Some(size) = self.prepare(code, command)? {
                return Ok(Some((size, &commands[i + 1..])));
            }
        }
        Ok(None)
    }

    // One command before the first `yard`; at that, the size of its memories, and nothing is done.
    fn prepare(&mut self, code: &mut Vec<u32>, command: &Command) -> Result<Option<u32>, AllocError>
        ensures is { IfOk result (λ o. ((cs : List Line) → spoken self.new.answers.items ++ answers_of (or_yard o (view self.new.session code.new.items false)) cs ≡ told self.old code.old.items false (command.now ∷ cs))) }
    {
        match command {
            Command::Yard(size) => return Ok(Some(*size)),
            Command::Code(words) => code.extend_from_slice(words.as_slice())?,
            other => self.answer(code.as_slice(), other)?,
        }
        Ok(None)
    }

    fn follow_all(&mut self, store: &'a [u32], commands: &[Command]) -> Result<(), AllocError>
        ensures is { OnOk result (spoken self.new.answers.items ≡ told self.old store.now true commands.now) }
    {
        for command in commands {
            self.follow(store, command)?;
        }
        Ok(())
    }

    // One command from the first `yard` on.
    fn follow(&mut self, store: &'a [u32], command: &Command) -> Result<(), AllocError>
        ensures is { OnOk result (((cs : List Line) → told self.new store.now true cs ≡ told self.old store.now true (command.now ∷ cs))) }
    {
        match command {
            Command::Yard(size) => self.session.renew(self.heap, store, *size),
            Command::Code(_) => Ok(()),
            other => self.answer(store, other),
        }
    }

    // A command that changes neither the code store nor which yard stands over it.
    fn answer(&mut self, code: &[u32], command: &Command) -> Result<(), AllocError>
        requires { Aside command.now }
        ensures is { OnOk result (((under : Bool) (cs : List Line) → told self.new code.now under cs ≡ told self.old code.now under (command.now ∷ cs))) }
    {
        if let Some(answer) = self.session.answer(self.heap, code, command)? {
            self.answers.push(answer)?;
        }
        Ok(())
    }

    fn finish(self) -> (Buffers, AnyPolicy, Vec<Answer>)
        ensures is { result ≡ (self.entry.session.memory, self.entry.session.policy, self.entry.answers) }
    {
        let Performance {
            heap: _,
            session,
            answers,
        } = self;
        let (memory, policy) = session.finish();
        (memory, policy, answers)
    }
}
