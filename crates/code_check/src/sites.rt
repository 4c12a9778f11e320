// Where a word stands in its window.
ghost use Rattle.std.specs.Prelude.{◌≡◌, ◌+◌, ◌<◌, ◌≤◌, ◌==◌};

use crate::aspects::is_base_word;
use crate::pointers::Pointer;

#[derive(Clone, Copy)]
pub(crate) struct Site {
    // So many words has the window.
    pub(crate) words: usize,
    pub(crate) place: usize,
    // The word after it, or 0, which is not RV32I, where there is none: the rules speak of what it decodes to, so that an
    // `Option` would be no plainer.
    pub(crate) next: u32,
    ghost inside: { place < words },
    ghost few: { words ≤ 4096 },
}

impl Site {
    ghost use Rattle.rv32i.specs.Decoded.{decoded};
    ghost use Rattle.code_check.specs.Aspects.{is_base_of};
    ghost use Rattle.code_check.specs.Rules.{lands as is_landing};

    pub(crate) fn is_last(self) -> bool
        ensures { result ≡ (self.place + 1 == self.words) }
    {
        self.place + 1 == self.words
    }

    // Whether the word after it is the base word of a pointer.
    pub(crate) fn precedes_base(self, pointer: Pointer) -> bool
        ensures { result ≡ is_base_of pointer (decoded self.next) }
    {
        is_base_word(self.next, pointer)
    }

    // Whether `offset` bytes on from it there is a word of the window.
    pub(crate) fn lands(self, offset: i32) -> bool
        ensures { result ≡ is_landing self.words self.place offset }
    {
        let target = 4 * (self.place as i64) + i64::from(offset);
        0 <= target && target < 4 * (self.words as i64) && target % 4 == 0
    }
}
