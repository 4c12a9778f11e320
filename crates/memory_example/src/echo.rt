// What is written is what is read, in any memory.
ghost use Rattle.std.specs.Prelude.{◌≡◌, ◌+◌, length, if◌then◌else◌, Some, None, nat_lt};
ghost use Rattle.memory.specs.Bytes.{word_put};

use memory::Memory;

pub fn echo_word<M: Memory>(memory: &mut M, address: u32, word: u32) -> Option<u32>
    ensures is { result ≡ (if nat_lt (address + 3) (length (M.Memory.bytes memory.old)) then Some word else None) }
    ensures bytes { M.Memory.bytes memory.new ≡ word_put (M.Memory.bytes memory.old) address word }
    ensures lent { M.Memory.lent memory.new ≡ M.Memory.lent memory.old }
{
    memory.write_word(address, word);
    memory.read_word(address)
}
