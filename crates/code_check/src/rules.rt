// The rules, one by one, and the lowest that an instruction breaks.
ghost use Rattle.std.specs.Prelude.{◌≡◌};
ghost use Rattle.rv32i.specs.Decoded.{decoded};
ghost use Rattle.code_check.specs.Rules.{stray_store, stray_jump, seizes as is_seizing, lone_mask, stray_target, runs_off, lowest_broken};

use crate::aspects::{
    based_pointer, jump_base, leaves, masked_pointer, offset, store_base, written,
};
use crate::pointers::{Pointer, dedicated, may_store};
use crate::sites::Site;
use refusal::Rule;
use rv32i::Instruction;

// A store goes through another register than the data pointer.
fn stray_store(instruction: Instruction) -> bool
    ensures { result ≡ stray_store instruction }
{
    store_base(instruction).is_some_and(|rs1| !may_store(rs1))
}

// A JALR goes through another register than the code pointer, or not straight to where it points.
fn stray_jump(instruction: Instruction) -> bool
    ensures { result ≡ stray_jump instruction }
{
    let code = Pointer::Code.register();
    jump_base(instruction).is_some_and(|(rs1, offset)| rs1 != code || offset != 0)
}

// A dedicated register is written by what is neither a mask word nor a base word.
fn seizes(instruction: Instruction) -> bool
    ensures { result ≡ is_seizing instruction }
{
    written(instruction).is_some_and(dedicated)
        && masked_pointer(instruction).is_none()
        && based_pointer(instruction).is_none()
}

// A mask word stands before another word than the base word of its pointer.
fn lone_mask(instruction: Instruction, site: Site) -> bool
    ensures { result ≡ lone_mask (decoded site.next) instruction }
{
    masked_pointer(instruction).is_some_and(|pointer| !site.precedes_base(pointer))
}

// A branch or a JAL goes to no word of the window.
fn stray_target(instruction: Instruction, site: Site) -> bool
    ensures { result ≡ stray_target site.words site.place instruction }
{
    offset(instruction).is_some_and(|offset| !site.lands(offset))
}

// The last word may be followed by the one past the window.
fn runs_off(instruction: Instruction, site: Site) -> bool
    ensures { result ≡ runs_off site.words site.place instruction }
{
    site.is_last() && !leaves(instruction)
}

// The lowest rule that an instruction breaks where it stands.
pub(crate) fn lowest_broken(instruction: Instruction, site: Site) -> Option<Rule>
    ensures { result ≡ lowest_broken site.words site.place (decoded site.next) instruction }
{
    if stray_store(instruction) {
        Some(Rule::StoreBase)
    } else if stray_jump(instruction) {
        Some(Rule::JumpBase)
    } else if seizes(instruction) {
        Some(Rule::Dedicated)
    } else if lone_mask(instruction, site) {
        Some(Rule::Paired)
    } else if stray_target(instruction, site) {
        Some(Rule::Target)
    } else if runs_off(instruction, site) {
        Some(Rule::Ending)
    } else {
        None
    }
}
