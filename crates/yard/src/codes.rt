ghost use Rattle.std.specs.Prelude.{◌≡◌, map, take};
ghost use Rattle.rv32i.specs.Decoded.{decoded};
ghost use Rattle.code_check.specs.Windows.{counted};

use rv32i::{Cause, Instruction};

mod fetching;

// A code store, and what each of the words that count decodes to. They stand side by side, since the store is lent, read by the
// check as it is, and given back.
#[derive(Drop)]
pub struct Code<'a> {
    store: &'a [u32],
    cells: Vec<Result<Instruction, Cause>>,
    ghost decoded: { cells.items ≡ map decoded (take (counted store.now) store.now) },
}
