// A memory over one lent buffer.
ghost use Rattle.std.specs.Prelude.{◌≡◌, ◌+◌, ◌≤◌, min, [], ◌∷◌, length, nat_le};
ghost use Rattle.memories.specs.Layout.{limit, counted, uncounted, bytes_at, bytes_put};
ghost use Rattle.memories.specs.Few.{flat_few};

use crate::LIMIT;
use memory::Memory;

#[derive(Drop)]
pub struct Flat<'a> {
    buffer: &'a mut [u8],
}

impl<'a> Flat<'a> {
    pub fn new(buffer: &'a mut [u8]) -> Flat<'a>
        ensures is { result.buffer.now ≡ buffer.old }
        ensures lent { result.buffer.ghost_name ≡ buffer.entry.ghost_name }
    {
        Flat { buffer }
    }

    #[tactic(auto, using(crate::proofs::Cuts::counted_min))]
    fn counted(&self) -> &[u8]
        ensures is { result.now ≡ counted self.now.buffer.now }
        ensures len { length result.now ≡ min (length self.now.buffer.now) limit }
    {
        &self.buffer[..self.buffer.len().min(LIMIT)]
    }

    // N bytes side by side, with one test for all.
    fn get<const N: usize>(&self, address: u32) -> Option<[u8; N]>
        requires { N ≤ 4 }
        ensures is { result ≡ bytes_at (counted self.now.buffer.now) address N }
    {
        let at = address as usize;
        self.counted().get(at..at + N)?.first_chunk().copied()
    }

    #[tactic(auto, using(crate::proofs::Cuts::counted_put, crate::proofs::Cuts::uncounted_put))]
    fn put<const N: usize>(&mut self, address: u32, bytes: [u8; N]) -> bool
        requires { N ≤ 4 }
        ensures is { result ≡ nat_le (address + N) (length (counted self.old.buffer.now)) }
        ensures bytes { counted self.new.buffer.now ≡ bytes_put (counted self.old.buffer.now) address N bytes.entry }
        ensures rest { uncounted self.new.buffer.now ≡ uncounted self.old.buffer.now }
        ensures lent { self.new.buffer.ghost_name ≡ self.old.buffer.ghost_name }
    {
        let at = address as usize;
        if at + N > self.counted().len() {
            return false;
        }
        self.buffer[at..at + N].copy_from_slice(&bytes);
        true
    }
}

impl Memory for Flat<'_> {
    ghost bytes = { λ m. counted m.buffer.now };

    ghost few = { λ m. flat_few m.buffer.now };

    ghost lent = { λ m. record { name = m.buffer.ghost_name; spare = uncounted m.buffer.now } ∷ [] };

    fn size(&self) -> u32 {
        self.counted().len() as u32
    }

    fn read(&self, address: u32) -> Option<u8> {
        self.counted().get(address as usize).copied()
    }

    fn write(&mut self, address: u32, byte: u8) -> bool {
        self.put(address, [byte])
    }

    fn read_half(&self, address: u32) -> Option<u16> {
        Some(u16::from_le_bytes(self.get(address)?))
    }

    fn read_word(&self, address: u32) -> Option<u32> {
        Some(u32::from_le_bytes(self.get(address)?))
    }

    fn write_half(&mut self, address: u32, half: u16) -> bool {
        self.put(address, half.to_le_bytes())
    }

    fn write_word(&mut self, address: u32, word: u32) -> bool {
        self.put(address, word.to_le_bytes())
    }
}
