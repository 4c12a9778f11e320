// One of the built memories, chosen at run time.
ghost use Rattle.memories.specs.Choice.{any_bytes, any_few, any_lent};

use crate::flat::Flat;
use crate::lanes::Lanes;
use memory::Memory;

#[derive(Drop)]
pub enum AnyMemory<'a> {
    Flat(Flat<'a>),
    Lanes(Lanes<'a>),
}

impl Memory for AnyMemory<'_> {
    ghost bytes = { λ m. any_bytes m };

    ghost few = { λ m. any_few m };

    ghost lent = { λ m. any_lent m };

    fn size(&self) -> u32 {
        match self {
            AnyMemory::Flat(m) => m.size(),
            AnyMemory::Lanes(m) => m.size(),
        }
    }

    fn read(&self, address: u32) -> Option<u8> {
        match self {
            AnyMemory::Flat(m) => m.read(address),
            AnyMemory::Lanes(m) => m.read(address),
        }
    }

    fn write(&mut self, address: u32, byte: u8) -> bool {
        match self {
            AnyMemory::Flat(m) => m.write(address, byte),
            AnyMemory::Lanes(m) => m.write(address, byte),
        }
    }

    fn read_half(&self, address: u32) -> Option<u16> {
        match self {
            AnyMemory::Flat(m) => m.read_half(address),
            AnyMemory::Lanes(m) => m.read_half(address),
        }
    }

    fn read_word(&self, address: u32) -> Option<u32> {
        match self {
            AnyMemory::Flat(m) => m.read_word(address),
            AnyMemory::Lanes(m) => m.read_word(address),
        }
    }

    fn write_half(&mut self, address: u32, half: u16) -> bool {
        match self {
            AnyMemory::Flat(m) => m.write_half(address, half),
            AnyMemory::Lanes(m) => m.write_half(address, half),
        }
    }

    fn write_word(&mut self, address: u32, word: u32) -> bool {
        match self {
            AnyMemory::Flat(m) => m.write_word(address, word),
            AnyMemory::Lanes(m) => m.write_word(address, word),
        }
    }
}
