ghost use Rattle.std.specs.Prelude.{◌≡◌, ◌≤◌, slice_index};
ghost use Rattle.yard.specs.Shapes.{callers};

use crate::codes::Code;
use crate::domains::Domain;
use crate::entries::Entry;
use crate::slots::Slot;
use arrayvec::ArrayVec;

mod calls;
mod parts;
mod steps;

// A yard as it is stored. `Yard` adds what holds of it between two words.
#[derive(Drop)]
pub struct Inner<'a> {
    code: Code<'a>,
    size: u32,
    // Not an `ArrayVec`: the table always has eight records, of which one is changed in place.
    domains: [Domain; 8],
    count: usize,
    gates: [Option<Entry>; 31],
    // The domains that are at work: each was called by the one before it.
    chain: ArrayVec<Slot, 8>,
    // The last of them, or the first of the table where there is none. It stands by itself too, since every step asks for it, and
    // without it a run is slower than a plain interpreter in C.
    current: Slot,
    // As in the model; the current domain's state says the same only of a whole yard.
    pending: bool,
    ghost few: { count ≤ 8 },
    ghost last: { current.number ≡ slice_index (callers chain.items) 0 },
}
