// What a caller learns of the buffers that it lends to a memory.
ghost use Rattle.std.specs.Prelude.{◌≡◌, ◌++◌, drop, replicate};
ghost use Rattle.memories.specs.Layout.{counted, uncounted, depth, woven, column};
ghost use Rattle.memories.specs.Lending.{lanes_bytes, LanesLender as Lender};
ghost use Rattle.memory_example.specs.Stamp.{stamped};

use memories::flat::Flat;
use memories::lanes::Lanes;
use memory::Memory;

// Some work on any memory. It says what becomes of the bytes, and that what was lent stays lent.
pub fn stamp<M: Memory>(memory: &mut M, address: u32)
    ensures bytes { M.Memory.bytes memory.new ≡ stamped (M.Memory.bytes memory.old) address }
    ensures lent { M.Memory.lent memory.new ≡ M.Memory.lent memory.old }
{
    memory.write_word(address, 0x0403_0201);
    memory.write(0, 7);
}

// The same of the one buffer of a flat memory. A step of its own: with stamp called where the memory is made, nothing ties
// what the buffer holds in the end to the memory, and three forms of that got no proof.
#[tactic(auto, using(memories::proofs::Lending::flat_lender))]
fn stamp_flat(memory: &mut Flat, address: u32)
    ensures bytes { memory.new.buffer.now ≡ stamped (counted memory.old.buffer.now) address ++ uncounted memory.old.buffer.now }
    ensures lent { memory.new.buffer.ghost_name ≡ memory.old.buffer.ghost_name }
{
    stamp(memory, address);
}

pub fn stamp_slice(buffer: &mut [u8], address: u32)
    ensures bytes { buffer.new ≡ stamped (counted buffer.old) address ++ uncounted buffer.old }
{
    let mut memory = Flat::new(buffer);
    stamp_flat(&mut memory, address);
}

#[tactic(auto, unfolding(memories::specs::Layout::counted, memories::specs::Layout::uncounted))]
pub fn stamp_array(address: u32) -> [u8; 64]
    ensures is { result ≡ stamped (replicate 64 0) address }
{
    let mut array = [0; 64];
    stamp_slice(&mut array, address);
    array
}

pub fn stamp_vec(buffer: &mut Vec<u8>, address: u32)
    ensures bytes { buffer.new.items ≡ stamped (counted buffer.old.items) address ++ uncounted buffer.old.items }
{
    stamp_slice(buffer.as_mut_slice(), address);
}

// The same of the four lanes of a memory, a step of its own as above.
fn stamp_lanes(memory: &mut Lanes, address: u32)
    ensures bytes { Lender memory.old memory.new (stamped (lanes_bytes memory.old) address) }
{
    stamp(memory, address);
}

// Four parameters, since callers have four buffers; a struct of them is the memory that is made here.
pub fn stamp_four<'a>(
    p: &'a mut [u8],
    q: &'a mut [u8],
    r: &'a mut [u8],
    s: &'a mut [u8],
    address: u32,
)
    ensures lane0 { p.new ≡ column 0 (stamped (woven p.old q.old r.old s.old) address) ++ drop (depth p.old q.old r.old s.old) p.old }
    ensures lane1 { q.new ≡ column 1 (stamped (woven p.old q.old r.old s.old) address) ++ drop (depth p.old q.old r.old s.old) q.old }
    ensures lane2 { r.new ≡ column 2 (stamped (woven p.old q.old r.old s.old) address) ++ drop (depth p.old q.old r.old s.old) r.old }
    ensures lane3 { s.new ≡ column 3 (stamped (woven p.old q.old r.old s.old) address) ++ drop (depth p.old q.old r.old s.old) s.old }
{
    let mut memory = Lanes {
        lane0: p,
        lane1: q,
        lane2: r,
        lane3: s,
    };
    stamp_lanes(&mut memory, address);
}

// Lanes of unlike length: a place past the shortest does not count, and stays.
#[tactic(auto, unfolding(memories::specs::Layout::woven))]
pub fn stamp_arrays(address: u32) -> ([u8; 3], [u8; 4], [u8; 5], [u8; 6])
    ensures lane0 { result.0 ≡ column 0 (stamped (replicate 12 0) address) ++ replicate 0 0 }
    ensures lane1 { result.1 ≡ column 1 (stamped (replicate 12 0) address) ++ replicate 1 0 }
    ensures lane2 { result.2 ≡ column 2 (stamped (replicate 12 0) address) ++ replicate 2 0 }
    ensures lane3 { result.3 ≡ column 3 (stamped (replicate 12 0) address) ++ replicate 3 0 }
{
    let mut p = [0; 3];
    let mut q = [0; 4];
    let mut r = [0; 5];
    let mut s = [0; 6];
    stamp_four(&mut p, &mut q, &mut r, &mut s, address);
    (p, q, r, s)
}

pub fn stamp_vecs(p: &mut Vec<u8>, q: &mut Vec<u8>, r: &mut Vec<u8>, s: &mut Vec<u8>, address: u32)
    ensures lane0 { p.new.items ≡ column 0 (stamped (woven p.old.items q.old.items r.old.items s.old.items) address) ++ drop (depth p.old.items q.old.items r.old.items s.old.items) p.old.items }
    ensures lane1 { q.new.items ≡ column 1 (stamped (woven p.old.items q.old.items r.old.items s.old.items) address) ++ drop (depth p.old.items q.old.items r.old.items s.old.items) q.old.items }
    ensures lane2 { r.new.items ≡ column 2 (stamped (woven p.old.items q.old.items r.old.items s.old.items) address) ++ drop (depth p.old.items q.old.items r.old.items s.old.items) r.old.items }
    ensures lane3 { s.new.items ≡ column 3 (stamped (woven p.old.items q.old.items r.old.items s.old.items) address) ++ drop (depth p.old.items q.old.items r.old.items s.old.items) s.old.items }
{
    stamp_four(
        p.as_mut_slice(),
        q.as_mut_slice(),
        r.as_mut_slice(),
        s.as_mut_slice(),
        address,
    );
}
