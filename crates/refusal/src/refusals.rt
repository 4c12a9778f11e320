ghost use Rattle.std.specs.Prelude.{◌≡◌, drop, Option, slice_index};
ghost use Rattle.refusal.specs.Told.{told, listed, cause_told};

use crate::rules::Rule;
use crate::values::Values;
use rv32i::Cause;

// Why a call is turned down. A `place` is the number of a word, in its window or in the rewriter's input.
#[derive(Clone, Copy)]
pub enum Refusal {
    // There are eight domains.
    Crowded,
    // m is not from 6 to 14.
    WindowBits,
    // The code base is no multiple of 2^m, or the window ends past the store.
    WindowPlace,
    // k is not from 10 to 16.
    SegmentBits,
    // The data base is no multiple of 2^k, or the segment ends past the memory or past 1,048,576.
    SegmentPlace,
    // Fewer than 2,048 bytes lie between this segment and another.
    SegmentNear,
    // A word breaks a rule; the cause is the decoder's, where the word is not RV32I.
    RuleBroken {
        place: usize,
        rule: Rule,
        cause: Option<Cause>,
    },
    // The gate is not from 1 to 30.
    NoGate,
    // The gate has an entry.
    GateTaken,
    // The gate has no entry.
    GateEmpty,
    // There is no such domain.
    NoDomain,
    // The offset is no multiple of 4, or not below 2^m.
    EntryOffset,
    // The register's number exceeds 31.
    NoRegister,
    // A host call is pending.
    HostPending,
    // A domain is active.
    DomainActive,
    // The gate's domain is stopped.
    DomainStopped,
    // No domain is active.
    NoneActive,
    // The memory's size is not the yard's.
    MemorySize,
    // No host call is pending in this yard.
    NonePending,
    // The offset plus the count exceeds 2^k.
    DeliveryEnd,
    // The input has more than 4,095 words.
    InputLength,
    // The output has fewer than 2^(m-2) words.
    OutputLength,
    // A word of the input is not RV32I.
    InputWord {
        place: usize,
        cause: Cause,
    },
    // A word of the input is AUIPC.
    InputAuipc {
        place: usize,
    },
    // A word of the input names one of x21 to x27 in a field that its instruction has.
    InputRegister {
        place: usize,
    },
    // The target of a word of the input is no word of it.
    InputTarget {
        place: usize,
    },
    // The result with one EBREAK exceeds 2^(m-2) words.
    ResultLength,
    // A branch's new offset is below -4096 or above 4094.
    BranchFar {
        place: usize,
    },
}

impl Refusal {
    // The number by which the refusal is known outside.
    pub fn number(self) -> u8
        ensures is { result ≡ slice_index (told self) 0 }
    {
        match self {
            Refusal::Crowded => 1,
            Refusal::WindowBits => 2,
            Refusal::WindowPlace => 3,
            Refusal::SegmentBits => 4,
            Refusal::SegmentPlace => 5,
            Refusal::SegmentNear => 6,
            Refusal::RuleBroken { .. } => 7,
            Refusal::NoGate => 8,
            Refusal::GateTaken => 9,
            Refusal::GateEmpty => 10,
            Refusal::NoDomain => 11,
            Refusal::EntryOffset => 12,
            Refusal::NoRegister => 13,
            Refusal::HostPending => 14,
            Refusal::DomainActive => 15,
            Refusal::DomainStopped => 16,
            Refusal::NoneActive => 17,
            Refusal::MemorySize => 18,
            Refusal::NonePending => 19,
            Refusal::DeliveryEnd => 20,
            Refusal::InputLength => 21,
            Refusal::OutputLength => 22,
            Refusal::InputWord { .. } => 23,
            Refusal::InputAuipc { .. } => 24,
            Refusal::InputRegister { .. } => 25,
            Refusal::InputTarget { .. } => 26,
            Refusal::ResultLength => 27,
            Refusal::BranchFar { .. } => 28,
        }
    }

    // The values after the number.
    pub fn values(self) -> Values
        ensures is { listed result ≡ drop 1 (told self) }
    {
        match self {
            Refusal::RuleBroken { place, rule, cause } => {
                Values::Three(place, usize::from(rule.number()), cause_told(cause))
            }
            Refusal::InputWord { place, cause } => {
                Values::Two(place, usize::from(cause.number()))
            }
            Refusal::InputAuipc { place }
            | Refusal::InputRegister { place }
            | Refusal::InputTarget { place }
            | Refusal::BranchFar { place } => Values::One(place),
            _ => Values::Empty,
        }
    }
}

// The number of the decoder's cause, or 0 where there is none.
fn cause_told(cause: Option<Cause>) -> usize
    ensures { result ≡ cause_told cause }
{
    cause.map_or(0, |cause| usize::from(cause.number()))
}
