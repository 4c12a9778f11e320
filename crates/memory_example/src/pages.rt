// A memory of one's own: 64 bytes in four pages, of which those that were never written are absent and read as zeros.
ghost use Rattle.std.specs.Prelude.{◌≡◌, ◌/◌, ◌<◌, [], length, replicate, slice_index_or, None};
ghost use Rattle.memory_example.specs.Paged.{shown, laid, laid_few};

use memory::Memory;

const SIZE: u32 = 64;

pub type Page = Option<[u8; 16]>;

#[derive(Drop)]
pub struct Pages {
    table: [Page; 4],
}

impl Pages {
    #[tactic(auto, unfolding(crate::specs::Paged::laid))]
    pub fn new() -> Pages
        ensures is { laid result.table ≡ replicate 64 0 }
    {
        Pages { table: [None; 4] }
    }

    // The page that an address lies in.
    fn page(&self, at: usize) -> [u8; 16]
        requires { at < SIZE }
        ensures is { result ≡ shown (slice_index_or self.now.table (at / 16) None) }
        ensures sizes { (length self.now.table ≡ 4) × (length result ≡ 16) }
    {
        self.table[at / 16].unwrap_or([0; 16])
    }
}

// Half and word access come with the trait.
impl Memory for Pages {
    ghost bytes = { λ m. laid m.table };

    ghost few = { λ m. laid_few m.table };

    // It owns its bytes.
    ghost lent = { λ _. [] };

    #[tactic(auto, using(crate::proofs::Turning::laid_length))]
    fn size(&self) -> u32 {
        SIZE
    }

    #[tactic(auto, using(crate::proofs::Turning::laid_length, crate::proofs::Turning::laid_byte))]
    fn read(&self, address: u32) -> Option<u8> {
        if address >= SIZE {
            return None;
        }
        let at = address as usize;
        Some(self.page(at)[at % 16])
    }

    #[tactic(auto, using(crate::proofs::Turning::laid_length, crate::proofs::Turning::laid_put))]
    fn write(&mut self, address: u32, byte: u8) -> bool {
        if address >= SIZE {
            return false;
        }
        let at = address as usize;
        let mut page = self.page(at);
        page[at % 16] = byte;
        self.table[at / 16] = Some(page);
        true
    }
}
