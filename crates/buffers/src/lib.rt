// The memory of a script: its buffers are kept from command to command, and lent to a memory for a call.
#![tactic(auto)]

ghost use Rattle.std.specs.Prelude.{◌≡◌, IfOk, slice_index};
ghost use Rattle.memories.specs.Layout.{counted, woven};
ghost use Rattle.buffers.specs.Bytes.{bytes_of, zeros, peeked};

use memories::LIMIT;
use memories::flat::Flat;
use memories::lanes::Lanes;
use memory::Memory;
use std::alloc::{AllocError, Global};

// Four lanes, and no array of four: where each element of an array is lent, the check loses what it holds afterwards.
#[derive(Drop)]
pub enum Buffers {
    Flat(Vec<u8>),
    Lanes(Vec<u8>, Vec<u8>, Vec<u8>, Vec<u8>),
}

impl Buffers {
    // Zeros in one buffer.
    pub fn flat(heap: Global, size: u32) -> Result<Buffers, AllocError>
        ensures is { IfOk result (λ b. bytes_of b ≡ counted (zeros size)) }
    {
        Ok(Buffers::Flat(zeroed(heap, size)?))
    }

    // Zeros in four lanes of these lengths.
    pub fn lanes(heap: Global, lengths: [u32; 4]) -> Result<Buffers, AllocError>
        ensures is { IfOk result (λ b. bytes_of b ≡ woven (zeros (slice_index lengths 0)) (zeros (slice_index lengths 1)) (zeros (slice_index lengths 2)) (zeros (slice_index lengths 3))) }
    {
        let [n0, n1, n2, n3] = lengths;
        Ok(Buffers::Lanes(
            zeroed(heap, n0)?,
            zeroed(heap, n1)?,
            zeroed(heap, n2)?,
            zeroed(heap, n3)?,
        ))
    }

    // The bytes from an address on. It takes a `&mut`, since a memory is lent its buffers to be written too; it writes nothing.
    pub fn peek(
        &mut self,
        heap: Global,
        address: u32,
        count: u32,
    ) -> Result<Vec<Option<u8>>, AllocError>
        ensures is { IfOk result (λ v. v.items ≡ peeked (bytes_of self.old) address count) }
        ensures kept { bytes_of self.new ≡ bytes_of self.old }
    {
        match self {
            Buffers::Flat(buffer) => peek_flat(heap, buffer, address, count),
            Buffers::Lanes(p, q, r, s) => peek_lanes(heap, p, q, r, s, address, count),
        }
    }
}

// Bytes past what a memory counts could not be seen, and are not made.
fn zeroed(heap: Global, length: u32) -> Result<Vec<u8>, AllocError>
    ensures is { IfOk result (λ v. v.items ≡ zeros length) }
{
    vec![in heap; 0; (length as usize).min(LIMIT)]
}

// This and the next stand apart, since of a `Vec` that `peek` itself lends to a memory the check loses what it holds afterwards.
fn peek_flat(
    heap: Global,
    buffer: &mut [u8],
    address: u32,
    count: u32,
) -> Result<Vec<Option<u8>>, AllocError>
    ensures is { IfOk result (λ v. v.items ≡ peeked (counted buffer.old) address count) }
    ensures kept { buffer.new ≡ buffer.old }
{
    peek_at(heap, &Flat::new(buffer), address, count)
}

fn peek_lanes<'a>(
    heap: Global,
    lane0: &'a mut [u8],
    lane1: &'a mut [u8],
    lane2: &'a mut [u8],
    lane3: &'a mut [u8],
    address: u32,
    count: u32,
) -> Result<Vec<Option<u8>>, AllocError>
    ensures is { IfOk result (λ v. v.items ≡ peeked (woven lane0.old lane1.old lane2.old lane3.old) address count) }
    ensures kept0 { lane0.new ≡ lane0.old }
    ensures kept1 { lane1.new ≡ lane1.old }
    ensures kept2 { lane2.new ≡ lane2.old }
    ensures kept3 { lane3.new ≡ lane3.old }
{
    let memory = Lanes {
        lane0,
        lane1,
        lane2,
        lane3,
    };
    peek_at(heap, &memory, address, count)
}

// The bytes from an address on, with none at or above the size.
fn peek_at<M: Memory>(
    heap: Global,
    memory: &M,
    address: u32,
    count: u32,
) -> Result<Vec<Option<u8>>, AllocError>
    ensures is { IfOk result (λ v. v.items ≡ peeked (M.Memory.bytes memory.now) address count) }
{
    (0..count)
        .map(|i| address.checked_add(i).and_then(|a| memory.read(a)))
        .collect(heap)
}
