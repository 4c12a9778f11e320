use code_check::check;
use refusal::Values;

// Code that stores a byte, goes through its code pointer and back to the start, in a window of 64 bytes.
pub(crate) const GOOD: [u32; 16] = [
    0x06400293, // ADDI x5,x0,100
    0x0192FDB3, // AND x27,x5,x25
    0x018DEDB3, // OR x27,x27,x24
    0x005D8223, // SB x5,4(x27)
    0x00000313, // ADDI x6,x0,0
    0x01737D33, // AND x26,x6,x23
    0x016D6D33, // OR x26,x26,x22
    0x000D00E7, // JALR x1,0(x26)
    0x00000013, // ADDI x0,x0,0
    0x00000013, 0x00000013, 0x00000013, 0x00000013, 0x00000013, 0x00000013, 0xFC5FF06F, // JAL x0,-60
];

// The number of the refusal and its values, with 0 for those that are not there; all 0 where the window is accepted.
// Numbers, since they are what is told outside.
pub(crate) fn told(store: &[u32], base: u32, m: u32) -> (u8, usize, usize, usize) {
    let Err(refusal) = check(store, base, m) else {
        return (0, 0, 0, 0);
    };
    let number = refusal.number();
    match refusal.values() {
        Values::Empty => (number, 0, 0, 0),
        Values::One(a) => (number, a, 0, 0),
        Values::Two(a, b) => (number, a, b, 0),
        Values::Three(a, b, c) => (number, a, b, c),
    }
}

// The same of the good window with another word at a place.
pub(crate) fn one(place: usize, word: u32) -> (u8, usize, usize, usize) {
    changed(&[(place, word)])
}

// The same with other words at two places.
pub(crate) fn two(place: usize, word: u32, second: usize, other: u32) -> (u8, usize, usize, usize) {
    changed(&[(place, word), (second, other)])
}

fn changed(words: &[(usize, u32)]) -> (u8, usize, usize, usize) {
    let mut window = GOOD;
    for (place, word) in words {
        if let Some(old) = window.get_mut(*place) {
            *old = *word;
        }
    }
    told(&window, 0, 6)
}
