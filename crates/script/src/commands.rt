use refusal::Refusal;
use rv32i::{Cause, Instruction};
use std::fmt;

#[derive(Drop)]
pub enum Command {
    Decode(u32),
    Encode(Instruction),
    // A new memory of zeros over one buffer of this many bytes.
    FlatMemory(u32),
    // The same over four lanes of these lengths.
    LanesMemory([u32; 4]),
    Peek { address: u32, count: u32 },
    Rights([u32; 8]),
    Rings { domains: [u8; 8], gates: [u8; 32] },
    May { domain: u32, gate: u32 },
    // Words that are appended to the code store.
    Code(Vec<u32>),
    // The same from a file, which has to be read before the script is run.
    CodeFile(String),
    Check { base: u32, m: u32 },
}

// What a command answers, if it answers at all.
#[derive(Drop)]
pub enum Answer {
    Decoded(Result<Instruction, Cause>),
    Encoded(Option<u32>),
    Peeked(Vec<Option<u8>>),
    May(bool),
    Checked(Result<(), Refusal>),
}

// The line that is printed.
impl fmt::Display for Answer {
    fn fmt<W: fmt::Write>(&self, f: &mut fmt::Formatter<W>) -> fmt::Result {
        match self {
            Answer::Decoded(Ok(instruction)) => write!(f, "decode {instruction}"),
            Answer::Decoded(Err(cause)) => write!(f, "decode refused {cause}"),
            Answer::Encoded(Some(word)) => write!(f, "encode 0x{word:08x}"),
            Answer::Encoded(None) => f.write_str("encode refused"),
            Answer::Peeked(bytes) => {
                f.write_str("peek")?;
                for byte in bytes.iter() {
                    match byte {
                        Some(value) => write!(f, " {value}")?,
                        None => f.write_str(" none")?,
                    }
                }
                Ok(())
            }
            Answer::May(true) => f.write_str("may yes"),
            Answer::May(false) => f.write_str("may no"),
            Answer::Checked(Ok(())) => f.write_str("check accepted"),
            Answer::Checked(Err(refusal)) => write!(f, "check refused {refusal}"),
        }
    }
}
