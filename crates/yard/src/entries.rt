use crate::slots::Slot;

// Where a gate leads: a domain, and a pc in its window.
#[derive(Clone, Copy)]
pub struct Entry {
    pub domain: Slot,
    pub pc: u32,
}
