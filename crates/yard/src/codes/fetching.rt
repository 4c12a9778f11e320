ghost use Rattle.std.specs.Prelude.{◌≡◌, map, IfOk};
ghost use Rattle.rv32i.specs.Decoded.{decoded};
ghost use Rattle.yard_steps.specs.Steps.{fetched};
ghost use Rattle.yard.specs.Shapes.{pointed};

use crate::codes::Code;
use code_check::STORE_WORDS;
use machine::Stop;
use rv32i::{Cause, Instruction, decode};
use std::alloc::{AllocError, Global};

fn decode_all(heap: Global, words: &[u32]) -> Result<Vec<Result<Instruction, Cause>>, AllocError>
    ensures { IfOk result (λ v. v.items ≡ map decoded words.now) }
{
    words.iter().map(|word| decode(*word)).collect(heap)
}

impl<'a> Code<'a> {
    pub fn new(heap: Global, store: &'a [u32]) -> Result<Code<'a>, AllocError>
        ensures { IfOk result (λ c. c.store.now ≡ store.now) }
    {
        let cells = decode_all(heap, &store[0..store.len().min(STORE_WORDS)])?;
        Ok(Code { store, cells })
    }

    pub fn store(&self) -> &[u32]
        ensures { result.now ≡ self.now.store.now }
    {
        self.store
    }

    pub fn into_store(self) -> &'a [u32]
        ensures { result.now ≡ self.entry.store.now }
    {
        self.store
    }

    pub fn fetch(&self, pc: u32) -> Result<&Instruction, Stop>
        ensures { pointed result ≡ fetched self.now.store.now pc }
    {
        let i = (pc / 4) as usize;
        if pc % 4 != 0 || i >= self.cells.len() {
            return Err(Stop::Fetch { pc });
        }
        // No `map_err`: its closure would have to know again that `i` is within the store.
        match &self.cells[i] {
            Ok(instruction) => Ok(instruction),
            Err(_) => Err(Stop::Illegal {
                word: self.store[i],
            }),
        }
    }
}
