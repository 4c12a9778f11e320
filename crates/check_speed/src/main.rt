// How fast the check is: with a number of rounds as its argument, words per second on a full window; without, the verdict alone.
#![tactic(auto)]

use code_check::check;
use std::time::Instant;
use std::{array, env, io};

// Eight words that store a byte, go through the code pointer and back to their start.
const LOOP: [u32; 8] = [
    0x06400293, // ADDI x5,x0,100
    0x0192FDB3, // AND x27,x5,x25
    0x018DEDB3, // OR x27,x27,x24
    0x005D8223, // SB x5,4(x27)
    0x0172FD33, // AND x26,x5,x23
    0x016D6D33, // OR x26,x26,x22
    0x000D00E7, // JALR x1,0(x26)
    0xFE5FF06F, // JAL x0,-28
];

fn full_window() -> [u32; 4096] {
    array::from_fn(|place| LOOP[place % LOOP.len()])
}

// How many of so many checks accept the window; one word is another each time, so that none can be left out. (A `for`, since a
// closure that changes the window is no plainer.)
fn accepted(words: &mut [u32; 4096], rounds: u32) -> u32 {
    let mut count = 0u32;
    for round in 0..rounds {
        words[0] = 0x00000293 + ((round % 2048) << 20);
        if check(words, 0, 14).is_ok() {
            count += 1;
        }
    }
    count
}

fn words_per_second(rounds: u32, nanos: u128) -> u128 {
    u128::from(rounds) * 4_096_000_000_000 / nanos.max(1)
}

fn main(rt: HostRuntime) -> io::Result<()> {
    let mut words = full_window();
    let argument = env::args(&rt)?.skip(1).last();
    let rounds = argument.map_or(0, |argument| argument.parse::<u32>().unwrap_or(0));
    if rounds == 0 {
        let accepted = accepted(&mut words, 1);
        return println!(rt; "{accepted} window of 4096 words accepted");
    }
    let start = Instant::now(&rt)?;
    let accepted = accepted(&mut words, rounds);
    let speed = words_per_second(rounds, start.elapsed(&rt)?.as_nanos());
    println!(rt; "{accepted} windows of 4096 words accepted, {speed} words per second")
}
