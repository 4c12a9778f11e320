// Words with the text that GNU binutils gives them: each is decoded and its text compared, and the
// text is read back, encoded and compared with the word.
#![tactic(auto)]

use rv32i::{decode, encode};
use std::alloc::{AllocError, Global};
use std::fs;

// Whether the word has this text.
fn prints(heap: Global, word: u32, text: &str) -> Result<bool, AllocError> {
    let Ok(instruction) = decode(word) else {
        return Ok(false);
    };
    Ok(instruction.to_string(heap)?.as_str() == text)
}

// Whether the text is that of an instruction that encodes to the word.
fn encodes(heap: Global, word: u32, text: &str) -> Result<bool, AllocError> {
    let Some(instruction) = assembly::parse(heap, text)? else {
        return Ok(false);
    };
    Ok(encode(instruction) == Some(word))
}

// Whether a line, a word and its text, holds both ways.
fn holds(heap: Global, line: &str) -> Result<bool, AllocError> {
    let Some((digits, text)) = line.split_once(' ') else {
        return Ok(false);
    };
    let Some(digits) = digits.strip_prefix("0x") else {
        return Ok(false);
    };
    let Ok(word) = u32::from_str_radix(digits, 16) else {
        return Ok(false);
    };
    Ok(prints(heap, word, text)? && encodes(heap, word, text)?)
}

fn main(rt: HostRuntime) -> anyhow::Result<()> {
    let heap = rt.alloc();
    let text = fs::read_to_string(&rt, "gnu-rv32i.txt")?;
    // Counted by hand, since a `filter` cannot pass on the errors of `holds`.
    let mut agreed = 0u32;
    for line in text.as_str().lines() {
        if holds(heap, line)? {
            agreed = agreed.saturating_add(1);
        } else {
            println!(rt; "disagrees: {line}")?;
        }
    }
    println!(rt; "{agreed} words agree")?;
    Ok(())
}
