// A test for each limit, by its name, which rows of one table would not have.
use crate::windows::{GOOD, told};
use refusal::{Refusal, Rule};
use rv32i::Cause;
use segment::Segment;
use std::test::Fail;

#[test]
fn bits_of_a_window(rt: HostRuntime) {
    assert_eq!(rt; told(&GOOD, 0, 5), (2, 0, 0, 0));
    assert_eq!(rt; told(&GOOD, 0, 15), (2, 0, 0, 0));
    assert_eq!(rt; told(&GOOD, 0, 4294967295), (2, 0, 0, 0));
    assert_eq!(rt; told(&GOOD, 1, 5), (2, 0, 0, 0));
}

#[test]
fn place_of_a_window(rt: HostRuntime) {
    assert_eq!(rt; told(&GOOD, 4, 6), (3, 0, 0, 0));
    assert_eq!(rt; told(&GOOD, 64, 6), (3, 0, 0, 0));
    assert_eq!(rt; told(&GOOD, 0, 7), (3, 0, 0, 0));
    assert_eq!(rt; told(&GOOD, 4294967232, 6), (3, 0, 0, 0));
}

// Words past the first 16,384 do not count.
#[test]
fn end_of_the_store(rt: HostRuntime) {
    let store = [0x00100073u32; 16400];
    assert_eq!(rt; told(&store, 65472, 6), (0, 0, 0, 0));
    assert_eq!(rt; told(&store, 49152, 14), (0, 0, 0, 0));
    assert_eq!(rt; told(&store, 65536, 6), (3, 0, 0, 0));
}

// A window that does not begin the store: its words are counted from its base.
#[test]
fn window_inside_a_store(rt: HostRuntime) {
    let mut store = [0x00100073u32; 64];
    store[37] = 0;
    assert_eq!(rt; told(&store, 64, 6), (0, 0, 0, 0));
    assert_eq!(rt; told(&store, 128, 6), (7, 5, 1, 1));
    assert_eq!(rt; told(&store, 128, 7), (7, 5, 1, 1));
    assert_eq!(rt; told(&store, 0, 8), (7, 37, 1, 1));
}

#[test]
fn refusals_as_text(rt: HostRuntime) -> Result<(), Fail> {
    let place = 15;
    let rule = Refusal::RuleBroken {
        place,
        rule: Rule::Paired,
        cause: None,
    };
    let word = Refusal::RuleBroken {
        place: 4095,
        rule: Rule::Decodes,
        cause: Some(Cause::System),
    };
    let input = Refusal::InputWord {
        place: 0,
        cause: Cause::Opcode,
    };
    let far = Refusal::BranchFar { place: 10 };
    let heap = rt.alloc();
    assert_eq!(rt; format!(in heap; "{rule}")?.as_str(), "7 15 5 0");
    assert_eq!(rt; format!(in heap; "{word}")?.as_str(), "7 4095 1 4");
    assert_eq!(rt; format!(in heap; "{input}")?.as_str(), "23 0 1");
    assert_eq!(rt; format!(in heap; "{far}")?.as_str(), "28 10");
    let crowded = Refusal::Crowded;
    assert_eq!(rt; format!(in heap; "{crowded}")?.as_str(), "1");
    Ok(())
}

// The number of the refusal, where the segment is not made.
fn segment_told(base: u32, k: u32, memory: u32) -> Option<u8> {
    Some(Segment::new(base, k, memory).err()?.number())
}

#[test]
fn segments(rt: HostRuntime) {
    assert_eq!(rt; segment_told(0, 10, 1024), None);
    assert_eq!(rt; segment_told(0, 9, 1024), Some(4));
    assert_eq!(rt; segment_told(0, 17, 1048576), Some(4));
    assert_eq!(rt; segment_told(512, 10, 4096), Some(5));
    assert_eq!(rt; segment_told(4096, 12, 8191), Some(5));
    assert_eq!(rt; segment_told(4096, 12, 8192), None);
    assert_eq!(rt; segment_told(983040, 16, 4294967295), None);
    assert_eq!(rt; segment_told(1048576, 10, 4294967295), Some(5));
    assert_eq!(rt; segment_told(4294966272, 10, 4294967295), Some(5));
}

#[test]
fn guard_zones(rt: HostRuntime) {
    assert_eq!(rt; apart(0, 3072), Some(true));
    assert_eq!(rt; apart(3072, 0), Some(true));
    assert_eq!(rt; apart(0, 2048), Some(false));
    assert_eq!(rt; apart(2048, 0), Some(false));
    assert_eq!(rt; apart(1024, 1024), Some(false));
}

// Whether the guard zone lies between segments of 1,024 bytes at two bases, where there are such segments.
fn apart(first: u32, second: u32) -> Option<bool> {
    let a = Segment::new(first, 10, 1048576).ok()?;
    let b = Segment::new(second, 10, 1048576).ok()?;
    Some(a.apart(b))
}
