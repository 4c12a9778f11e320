// x0 reads as 0 and writes to it are dropped, and so for a number that no register has.
ghost use Rattle.std.specs.Prelude.{◌≡◌};
ghost use Rattle.machine.specs.Registers.{value_of, written};

// The registers are a plain array, which callers copy and hand over by value.
pub fn register(registers: &[u32; 32], r: u8) -> u32
    ensures is { result ≡ value_of registers.now r }
{
    match registers.get(usize::from(r)) {
        Some(value) if r != 0 => *value,
        _ => 0,
    }
}

pub fn set_register(registers: &mut [u32; 32], rd: u8, value: u32)
    ensures is { registers.new ≡ written registers.old rd value }
{
    if rd != 0 && rd < 32 {
        registers[usize::from(rd)] = value;
    }
}
