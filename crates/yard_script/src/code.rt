// Code from a file: its little-endian words.
ghost use Rattle.std.specs.Prelude.{◌≡◌, ◌%◌, length, IfOk, MatchOption, ◌≢◌};
ghost use Rattle.yard_script.specs.Words.{words_of};

use std::alloc::{AllocError, Global};

// `None` where the bytes do not make whole words.
pub fn words(heap: Global, bytes: &[u8]) -> Result<Option<Vec<u32>>, AllocError>
    ensures is { IfOk result (λ o. MatchOption o (length bytes.now % 4 ≢ 0) (λ v. (length bytes.now % 4 ≡ 0) × (v.items ≡ words_of bytes.now))) }
{
    if bytes.len() % 4 != 0 {
        return Ok(None);
    }
    Ok(Some(whole_words(heap, bytes)?))
}

// Bytes at the end that do not make a word are left out.
fn whole_words(heap: Global, bytes: &[u8]) -> Result<Vec<u32>, AllocError>
    ensures is { IfOk result (λ v. v.items ≡ words_of bytes.now) }
{
    let (chunks, _rest) = bytes.as_chunks::<4>();
    chunks
        .iter()
        .map(|&chunk| u32::from_le_bytes(chunk))
        .collect(heap)
}
