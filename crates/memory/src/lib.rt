// What a memory is to everything above it: a size below 2^32 that never changes, and that many bytes.
#![tactic(auto)]

ghost use Rattle.std.specs.Prelude.{◌≡◌, ℕ, ◌+◌, ◌^◌, ◌<◌, List, length, nat_lt};
ghost use Rattle.memory.specs.Bytes.{byte_at, half_at, word_at, byte_put, half_put, word_put};
ghost use Rattle.memory.specs.Loans.{Loan};

pub trait Memory {
    // The bytes, address 0 first.
    ghost bytes: { Self → List ℕ };

    // Every one of them has an address.
    ghost few: { (m : Self) → length (bytes m) < 2 ^ 32 };

    // What was lent to the memory: each buffer's name, and the bytes in it that do not count.
    // A lender learns what its buffers hold after a call if every function on the way keeps this.
    ghost lent: { Self → List Loan };

    fn size(&self) -> u32
        ensures is { result ≡ length (bytes self.now) };

    fn read(&self, address: u32) -> Option<u8>
        ensures is { result ≡ byte_at (bytes self.now) address };

    // Says whether the byte was written.
    fn write(&mut self, address: u32, byte: u8) -> bool
        ensures is { result ≡ nat_lt address (length (bytes self.old)) }
        ensures bytes { bytes self.new ≡ byte_put (bytes self.old) address byte }
        ensures lent { lent self.new ≡ lent self.old };

    // The four bodies below differ in the width alone: a trait's method may have no const parameter, and a function over any
    // memory, called here at Self, gets no proof unless the bodies are final, while a memory may bring its own.
    fn read_half(&self, address: u32) -> Option<u16>
        ensures is { result ≡ half_at (bytes self.now) address }
    {
        if address >= self.size().saturating_sub(1) {
            return None;
        }
        let low = self.read(address)?;
        let high = self.read(address + 1)?;
        Some(u16::from_le_bytes([low, high]))
    }

    fn read_word(&self, address: u32) -> Option<u32>
        ensures is { result ≡ word_at (bytes self.now) address }
    {
        if address >= self.size().saturating_sub(3) {
            return None;
        }
        let b0 = self.read(address)?;
        let b1 = self.read(address + 1)?;
        let b2 = self.read(address + 2)?;
        let b3 = self.read(address + 3)?;
        Some(u32::from_le_bytes([b0, b1, b2, b3]))
    }

    // Says whether both bytes were written; if not, none was.
    fn write_half(&mut self, address: u32, half: u16) -> bool
        ensures is { result ≡ nat_lt (address + 1) (length (bytes self.old)) }
        ensures bytes { bytes self.new ≡ half_put (bytes self.old) address half }
        ensures lent { lent self.new ≡ lent self.old }
    {
        if address >= self.size().saturating_sub(1) {
            return false;
        }
        let [low, high] = half.to_le_bytes();
        self.write(address, low);
        self.write(address + 1, high);
        true
    }

    // Says whether all four bytes were written; if not, none was.
    fn write_word(&mut self, address: u32, word: u32) -> bool
        ensures is { result ≡ nat_lt (address + 3) (length (bytes self.old)) }
        ensures bytes { bytes self.new ≡ word_put (bytes self.old) address word }
        ensures lent { lent self.new ≡ lent self.old }
    {
        if address >= self.size().saturating_sub(3) {
            return false;
        }
        let [b0, b1, b2, b3] = word.to_le_bytes();
        self.write(address, b0);
        self.write(address + 1, b1);
        self.write(address + 2, b2);
        self.write(address + 3, b3);
        true
    }
}
