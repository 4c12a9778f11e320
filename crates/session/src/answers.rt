use refusal::Refusal;
use rv32i::{Cause, Instruction};
use std::fmt;
use yard_steps::Report;

// What a command answers, if it answers at all.
#[derive(Drop)]
pub enum Answer {
    Decoded(Result<Instruction, Cause>),
    Encoded(Option<u32>),
    Peeked(Vec<Option<u8>>),
    May(bool),
    Checked(Result<(), Refusal>),
    Admitted(Result<usize, Refusal>),
    Opened(Result<(), Refusal>),
    Called(Result<(), Refusal>),
    Ran(Result<Report, Refusal>),
    Replied(Result<(), Refusal>),
    Cut(Result<(), Refusal>),
    Register(Result<u32, Refusal>),
}

// The line that is printed.
impl fmt::Display for Answer {
    fn fmt<W: fmt::Write>(&self, f: &mut fmt::Formatter<W>) -> fmt::Result {
        match self {
            Answer::Decoded(Ok(instruction)) => write!(f, "decode {instruction}"),
            Answer::Decoded(Err(cause)) => write!(f, "decode refused {cause}"),
            Answer::Encoded(Some(word)) => write!(f, "encode 0x{word:08x}"),
            Answer::Encoded(None) => f.write_str("encode refused"),
            Answer::Peeked(bytes) => write_bytes(f, bytes.as_slice()),
            Answer::May(true) => f.write_str("may yes"),
            Answer::May(false) => f.write_str("may no"),
            Answer::Checked(Ok(())) => f.write_str("check accepted"),
            Answer::Checked(Err(refusal)) => write_refused(f, "check", refusal),
            Answer::Admitted(Ok(domain)) => write!(f, "admit {domain}"),
            Answer::Admitted(Err(refusal)) => write_refused(f, "admit", refusal),
            Answer::Opened(result) => write_done(f, "open", result),
            Answer::Called(result) => write_done(f, "call", result),
            Answer::Ran(Ok(report)) => write!(f, "run {report}"),
            Answer::Ran(Err(refusal)) => write_refused(f, "run", refusal),
            Answer::Replied(result) => write_done(f, "reply", result),
            Answer::Cut(result) => write_done(f, "cut", result),
            Answer::Register(Ok(value)) => write!(f, "register {value}"),
            Answer::Register(Err(refusal)) => write_refused(f, "register", refusal),
        }
    }
}

fn write_bytes<W: fmt::Write>(f: &mut fmt::Formatter<W>, bytes: &[Option<u8>]) -> fmt::Result {
    f.write_str("peek")?;
    for byte in bytes {
        match byte {
            Some(value) => write!(f, " {value}")?,
            None => f.write_str(" none")?,
        }
    }
    Ok(())
}

fn write_done<W: fmt::Write>(
    f: &mut fmt::Formatter<W>,
    name: &str,
    res: &Result<(), Refusal>,
) -> fmt::Result {
    match res {
        Ok(()) => write!(f, "{name} done"),
        Err(refusal) => write_refused(f, name, refusal),
    }
}

fn write_refused<W: fmt::Write>(
    f: &mut fmt::Formatter<W>,
    name: &str,
    refusal: &Refusal,
) -> fmt::Result {
    write!(f, "{name} refused {refusal}")
}
