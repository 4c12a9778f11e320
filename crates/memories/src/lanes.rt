// A memory over four lent byte lanes: address a lies in lane a % 4 at place a / 4.
ghost use Rattle.std.specs.Prelude.{◌≡◌, ◌/◌, ◌%◌, ◌<◌};
ghost use Rattle.memories.specs.Layout.{lane, lane_put};
ghost use Rattle.memories.specs.Few.{lanes_few};

use crate::LIMIT;
use memory::Memory;

// Made by a literal, and not by a function: a function's result would not say whose the four buffers are. Callers write that
// literal, so the lanes are four fields and not an array.
#[derive(Drop)]
pub struct Lanes<'a> {
    pub lane0: &'a mut [u8],
    pub lane1: &'a mut [u8],
    pub lane2: &'a mut [u8],
    pub lane3: &'a mut [u8],
}

impl Lanes<'_> {
    ghost use Rattle.memories.specs.Lending.{lanes_depth};

    fn depth(&self) -> usize
        ensures is { result ≡ lanes_depth self.now }
    {
        let low = self.lane0.len().min(self.lane1.len());
        let high = self.lane2.len().min(self.lane3.len());
        low.min(high).min(LIMIT / 4)
    }

    fn lane(&self, k: u32) -> &[u8]
        ensures is { result.now ≡ lane self.now.lane0.now self.now.lane1.now self.now.lane2.now self.now.lane3.now k }
    {
        match k {
            0 => self.lane0,
            1 => self.lane1,
            2 => self.lane2,
            _ => self.lane3,
        }
    }

    // A store in each arm: what is stored through a `&mut` that the arms choose is lost to the proof where they join.
    fn put(&mut self, address: u32, byte: u8)
        requires { address / 4 < lanes_depth self.old }
        ensures lane0 { self.new.lane0.now ≡ lane_put (address / 4) byte (address % 4) 0 self.old.lane0.now }
        ensures lane1 { self.new.lane1.now ≡ lane_put (address / 4) byte (address % 4) 1 self.old.lane1.now }
        ensures lane2 { self.new.lane2.now ≡ lane_put (address / 4) byte (address % 4) 2 self.old.lane2.now }
        ensures lane3 { self.new.lane3.now ≡ lane_put (address / 4) byte (address % 4) 3 self.old.lane3.now }
        ensures lent { (self.new.lane0.ghost_name ≡ self.old.lane0.ghost_name) × (self.new.lane1.ghost_name ≡ self.old.lane1.ghost_name) × (self.new.lane2.ghost_name ≡ self.old.lane2.ghost_name) × (self.new.lane3.ghost_name ≡ self.old.lane3.ghost_name) }
    {
        let i = address as usize / 4;
        match address % 4 {
            0 => self.lane0[i] = byte,
            1 => self.lane1[i] = byte,
            2 => self.lane2[i] = byte,
            _ => self.lane3[i] = byte,
        }
    }
}

impl Memory for Lanes<'_> {
    ghost use Rattle.memories.specs.Lending.{lanes_bytes, lanes_lent};

    ghost bytes = { λ m. lanes_bytes m };

    ghost few = { λ m. lanes_few m.lane0.now m.lane1.now m.lane2.now m.lane3.now };

    ghost lent = { λ m. lanes_lent m };

    #[tactic(auto, using(crate::proofs::Weave::woven_length))]
    fn size(&self) -> u32 {
        self.depth() as u32 * 4
    }

    #[tactic(auto, using(crate::proofs::Weave::woven_length, crate::proofs::Weave::woven_byte))]
    fn read(&self, address: u32) -> Option<u8> {
        let i = address as usize / 4;
        if i < self.depth() {
            Some(self.lane(address % 4)[i])
        } else {
            None
        }
    }

    #[tactic(auto, using(crate::proofs::Weave::woven_length))]
    fn write(&mut self, address: u32, byte: u8) -> bool {
        if address as usize / 4 >= self.depth() {
            return false;
        }
        self.put(address, byte);
        true
    }
}
