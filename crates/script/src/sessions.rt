// What a script has built up so far: a memory, a policy and a code store.
ghost use Rattle.std.specs.Prelude.{◌≡◌, IfOk, OnErr, OnOk};
ghost use Rattle.script.specs.States.{view, start, after};
ghost use Rattle.script.specs.Answers.{Answers};

use crate::commands::{Answer, Command};
use buffers::Buffers;
use code_check::check;
use policy::Policy;
use policy::any::AnyPolicy;
use policy::rights::Rights;
use policy::rings::Rings;
use rv32i::{decode, encode};
use std::alloc::{AllocError, Global};

#[derive(Drop)]
pub struct Session {
    memory: Buffers,
    policy: AnyPolicy,
    code: Vec<u32>,
}

impl Session {
    // A memory of no byte, a policy that allows nothing, and no code.
    pub fn new(heap: Global) -> Session
        ensures is { view result ≡ start }
    {
        Session {
            memory: Buffers::Flat(Vec::new(heap)),
            policy: AnyPolicy::Rights(Rights { rows: [0; 8] }),
            code: Vec::new(heap),
        }
    }

    // Where there is no memory for it, a command changes nothing.
    pub fn perform(&mut self, heap: Global, command: Command) -> Result<Option<Answer>, AllocError>
        ensures is { IfOk result (λ a. Answers command (view self.old) a) }
        ensures state { OnOk result (view self.new ≡ after command (view self.old)) }
        ensures kept { OnErr result (view self.new ≡ view self.old) }
    {
        match command {
            Command::Decode(word) => Ok(Some(Answer::Decoded(decode(word)))),
            Command::Encode(instruction) => Ok(Some(Answer::Encoded(encode(instruction)))),
            Command::FlatMemory(size) => {
                self.memory = Buffers::flat(heap, size)?;
                Ok(None)
            }
            Command::LanesMemory(lengths) => {
                self.memory = Buffers::lanes(heap, lengths)?;
                Ok(None)
            }
            Command::Peek { address, count } => {
                Ok(Some(Answer::Peeked(self.memory.peek(heap, address, count)?)))
            }
            Command::Rights(rows) => {
                self.policy = AnyPolicy::Rights(Rights { rows });
                Ok(None)
            }
            Command::Rings { domains, gates } => {
                self.policy = AnyPolicy::Rings(Rings { domains, gates });
                Ok(None)
            }
            Command::May { domain, gate } => {
                Ok(Some(Answer::May(self.policy.allows(domain as usize, gate))))
            }
            Command::Code(words) => {
                self.code.extend_from_slice(words.as_slice())?;
                Ok(None)
            }
            // Its words have not been read, so there are none to append.
            Command::CodeFile(_path) => Ok(None),
            Command::Check { base, m } => {
                Ok(Some(Answer::Checked(check(self.code.as_slice(), base, m))))
            }
        }
    }
}
