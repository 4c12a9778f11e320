// The buffers that are kept between calls.
use buffers::Buffers;
use std::test::Fail;

#[test]
fn flat_buffer(rt: HostRuntime) -> Result<(), Fail> {
    let mut buffers = Buffers::flat(rt.alloc(), 3)?;
    let bytes = buffers.peek(rt.alloc(), 1, 3)?;
    assert_eq!(rt; bytes.as_slice(), [Some(0), Some(0), None].as_slice());
    Ok(())
}

// A place past the shortest lane does not count.
#[test]
fn lane_buffers(rt: HostRuntime) -> Result<(), Fail> {
    let mut buffers = Buffers::lanes(rt.alloc(), [2, 1, 3, 2])?;
    let bytes = buffers.peek(rt.alloc(), 3, 2)?;
    assert_eq!(rt; bytes.as_slice(), [Some(0), None].as_slice());
    Ok(())
}

#[test]
fn largest_buffer(rt: HostRuntime) -> Result<(), Fail> {
    let mut buffers = Buffers::flat(rt.alloc(), 0xffff_ffff)?;
    let bytes = buffers.peek(rt.alloc(), 1_048_575, 2)?;
    assert_eq!(rt; bytes.as_slice(), [Some(0), None].as_slice());
    Ok(())
}
