// How fast a yard runs: the window in a file, called at its first word. With a number as second argument, which the window gets
// in x10, the steps per second too.
#![tactic(auto)]

use anyhow::Context;
use memories::flat::Flat;
use memory::Memory;
use policy::rights::Rights;
use refusal::Refusal;
use std::time::Instant;
use std::{env, fs};
use yard::{Outcome, Yard};
use yard_steps::Report;

// The domain's segment, and the size of the memory.
const DATA: u32 = 0x2000;

const DATA_BITS: u32 = 13;

const SIZE: u32 = 0x4000;

// The second number that the window is called with.
const SEED: u32 = 12345;

// The m of a window of so many words.
fn window_bits(words: usize) -> u32 {
    (6..14)
        .find(|&m| (1usize << m) >= words.saturating_mul(4))
        .unwrap_or(14)
}

// One domain over the whole store, entered at its first word.
fn prepare(yard: &mut Yard, m: u32, argument: u32) -> Result<(), Refusal> {
    yard.admit([0; 32], 0, m, DATA, DATA_BITS)?;
    yard.open(1, 0, 0)?;
    yard.call(1, [argument, SEED, 0, 0, 0, 0, 0])
}

// A host call is not answered.
fn run(mut yard: Yard, buffer: &mut [u8]) -> Result<Report, Refusal> {
    let mut memory = Flat::new(buffer);
    match yard.run(&mut memory, &Rights { rows: [0; 8] }, u32::MAX)? {
        Outcome::Ended(report) => Ok(report),
        Outcome::Asked(report, pending) => {
            let _store = yard.end(pending);
            Ok(report)
        }
    }
}

fn steps_per_second(steps: u32, nanos: u128) -> u128 {
    u128::from(steps) * 1_000_000_000 / nanos.max(1)
}

fn main(rt: HostRuntime) -> anyhow::Result<()> {
    let heap = rt.alloc();
    let mut arguments = env::args(&rt)?.skip(1);
    let path = arguments.next().context("no file")?;
    let argument = arguments
        .next()
        .map(|text| text.parse::<u32>())
        .transpose()?;
    let bytes = fs::read(&rt, path.as_str())?;
    let words = yard_script::words(heap, bytes.as_slice())?;
    let words = words.context("the file has no whole number of words")?;
    let mut yard = Yard::new(heap, words.as_slice(), SIZE)?;
    let m = window_bits(words.len());
    // A refusal is printed, and not handed on: it is an answer, and the program ends well.
    if let Err(refusal) = prepare(&mut yard, m, argument.unwrap_or(1)) {
        return Ok(println!(rt; "refused {refusal}")?);
    }
    let mut buffer = vec![in heap; 0u8; SIZE as usize]?;
    let start = Instant::now(&rt)?;
    let report = match run(yard, buffer.as_mut_slice()) {
        Ok(report) => report,
        Err(refusal) => return Ok(println!(rt; "refused {refusal}")?),
    };
    let nanos = start.elapsed(&rt)?.as_nanos();
    println!(rt; "{report}")?;
    if argument.is_some() {
        let speed = steps_per_second(report.count, nanos);
        println!(rt; "{} steps, {speed} a second", report.count)?;
    }
    Ok(())
}
