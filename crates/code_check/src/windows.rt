ghost use Rattle.std.specs.Prelude.{◌≡◌, ℕ, List, Ok};
ghost use Rattle.refusal.specs.Told.{told_in};
ghost use Rattle.code_check.specs.Windows.{bits_fit, code_mask_of, Confines, windowed, viewed, Framed};

use refusal::Refusal;

// A window has 2^m bytes.
const LEAST_BITS: u32 = 6;

const MOST_BITS: u32 = 14;

// So many words of a store count.
pub const STORE_WORDS: usize = 16384;

// Whether a window may have 2^m bytes.
pub fn bits_fit(m: u32) -> bool
    ensures is { result ≡ bits_fit m }
{
    LEAST_BITS <= m && m <= MOST_BITS
}

// What a mask word keeps for the code pointer: the way to a word, below the size of a window.
#[tactic(auto, using(crate::proofs::Framing::confines))]
pub fn code_mask(m: u32) -> Result<u32, Refusal>
    ensures is { told_in result ≡ code_mask_of m }
    ensures confines { (k : ℕ) → told_in result ≡ Ok k → Confines m k }
{
    way_bits(m)
}

fn way_bits(m: u32) -> Result<u32, Refusal>
    ensures { told_in result ≡ code_mask_of m }
{
    if !bits_fit(m) {
        return Err(Refusal::WindowBits);
    }
    Ok((1u32 << m) - 4)
}

// The words of the window of 2^m bytes from the code address `base`.
#[tactic(auto, using(crate::proofs::Framing::framed))]
pub fn window(store: &[u32], base: u32, m: u32) -> Result<&[u32], Refusal>
    ensures is { viewed result ≡ windowed store.now base m }
    ensures framed { (ws : List ℕ) → viewed result ≡ Ok ws → Framed store.now base m ws }
{
    words_from(store, base, m)
}

fn words_from(store: &[u32], base: u32, m: u32) -> Result<&[u32], Refusal>
    ensures { viewed result ≡ windowed store.now base m }
{
    if !bits_fit(m) {
        return Err(Refusal::WindowBits);
    }
    let start = base as usize;
    let size = 1usize << m;
    let counted = store.len().min(STORE_WORDS);
    if start % size != 0 || start + size > 4 * counted {
        return Err(Refusal::WindowPlace);
    }
    Ok(&store[start / 4..start / 4 + size / 4])
}
