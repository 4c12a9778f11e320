// A test for each attack, by its name, which rows of one table would not have.
use crate::windows::{one, two};

#[test]
fn good_window_passes(rt: HostRuntime) {
    assert_eq!(rt; one(8, 0x00000013), (0, 0, 0, 0));
    // A gate call anywhere but last, and EBREAK last.
    assert_eq!(rt; one(8, 0x00000073), (0, 0, 0, 0));
    assert_eq!(rt; one(15, 0x00100073), (0, 0, 0, 0));
}

// Rule 1, and each of the decoder's causes.
#[test]
fn words_that_are_not_rv32i(rt: HostRuntime) {
    assert_eq!(rt; one(8, 0x00000000), (7, 8, 1, 1));
    assert_eq!(rt; one(8, 0x0000100F), (7, 8, 1, 2));
    assert_eq!(rt; one(8, 0x20105093), (7, 8, 1, 3));
    assert_eq!(rt; one(8, 0x00200073), (7, 8, 1, 4));
}

// Rule 2: SB x5,0(x5) and SW x5,0(x2).
#[test]
fn store_through_a_register_of_choice(rt: HostRuntime) {
    assert_eq!(rt; one(3, 0x00528023), (7, 3, 2, 0));
    assert_eq!(rt; one(3, 0x00512023), (7, 3, 2, 0));
}

// A store behind JAL x0,-32 that no path from the entry reaches: an indirect jump does.
#[test]
fn store_that_is_not_reached_from_the_entry(rt: HostRuntime) {
    assert_eq!(rt; two(8, 0xFE1FF06F, 12, 0x00528023), (7, 12, 2, 0));
}

// Rule 3: JALR x0,0(x1), a plain return, and JALR x1,4(x26), which may end one word past the window.
#[test]
fn jump_through_a_register_of_choice(rt: HostRuntime) {
    assert_eq!(rt; one(7, 0x00008067), (7, 7, 3, 0));
    assert_eq!(rt; one(7, 0x004D00E7), (7, 7, 3, 0));
}

// Rule 4: the mask goes into x28, and only OR x27,x28,x24 into x27; a jump to that word makes any address.
#[test]
fn mask_in_a_scratch_register(rt: HostRuntime) {
    assert_eq!(rt; two(1, 0x0192FE33, 2, 0x018E6DB3), (7, 2, 4, 0));
}

// Rule 4: ORI x23,x23,3 makes the code mask 2^m - 1, so that a jump could end between two words.
#[test]
fn code_mask_that_keeps_the_low_bits(rt: HostRuntime) {
    assert_eq!(rt; one(4, 0x003BEB93), (7, 4, 4, 0));
}

// Rule 4: ADDI x27, LW x24, LUI x25, AUIPC x22 and JAL x27 each write a dedicated register, and so does a JALR into x26.
#[test]
fn dedicated_register_written(rt: HostRuntime) {
    assert_eq!(rt; one(8, 0x00000D93), (7, 8, 4, 0));
    assert_eq!(rt; one(8, 0x000DAC03), (7, 8, 4, 0));
    assert_eq!(rt; one(8, 0xFFFFFCB7), (7, 8, 4, 0));
    assert_eq!(rt; one(8, 0x00000B17), (7, 8, 4, 0));
    assert_eq!(rt; one(8, 0x00400DEF), (7, 8, 4, 0));
    assert_eq!(rt; one(7, 0x000D0D67), (7, 7, 4, 0));
}

// Rule 4: the mask and the base of the other pointer, AND x27,x5,x23 and OR x27,x27,x22, and the operands the other way round.
#[test]
fn mask_or_base_of_the_other_pointer(rt: HostRuntime) {
    assert_eq!(rt; one(1, 0x0172FDB3), (7, 1, 4, 0));
    assert_eq!(rt; one(8, 0x016DEDB3), (7, 8, 4, 0));
    assert_eq!(rt; one(1, 0x005CFDB3), (7, 1, 4, 0));
    assert_eq!(rt; one(8, 0x01BC6DB3), (7, 8, 4, 0));
}

// Rule 5: the base word is missing, is that of the other pointer, or would stand past the window.
#[test]
fn mask_without_its_base(rt: HostRuntime) {
    assert_eq!(rt; one(2, 0x00000013), (7, 1, 5, 0));
    assert_eq!(rt; one(2, 0x016D6D33), (7, 1, 5, 0));
    assert_eq!(rt; one(6, 0x018DEDB3), (7, 5, 5, 0));
    assert_eq!(rt; one(15, 0x0192FDB3), (7, 15, 5, 0));
}

// Rule 6: BEQ to the last word and to the first passes; one word further, or between two words, does not.
#[test]
fn branch_out_of_the_window(rt: HostRuntime) {
    assert_eq!(rt; one(8, 0x00000E63), (0, 0, 0, 0));
    assert_eq!(rt; one(8, 0x02000063), (7, 8, 6, 0));
    assert_eq!(rt; one(8, 0xFE0000E3), (0, 0, 0, 0));
    assert_eq!(rt; one(8, 0xFC000EE3), (7, 8, 6, 0));
    assert_eq!(rt; one(8, 0x00000363), (7, 8, 6, 0));
    assert_eq!(rt; one(8, 0x0020006F), (7, 8, 6, 0));
}

// Rule 7: the last word runs on, as ADDI, a gate call, a store and a branch do.
#[test]
fn last_word_runs_on(rt: HostRuntime) {
    assert_eq!(rt; one(15, 0x00000013), (7, 15, 7, 0));
    assert_eq!(rt; one(15, 0x00000073), (7, 15, 7, 0));
    assert_eq!(rt; one(15, 0x005D8223), (7, 15, 7, 0));
    assert_eq!(rt; one(15, 0xFE0000E3), (7, 15, 7, 0));
}

// The first word decides, and at it the lowest rule.
#[test]
fn first_word_and_lowest_rule(rt: HostRuntime) {
    assert_eq!(rt; two(3, 0x00528023, 2, 0x00000013), (7, 1, 5, 0));
    assert_eq!(rt; one(15, 0x00528023), (7, 15, 2, 0));
    assert_eq!(rt; one(15, 0x0200006F), (7, 15, 6, 0));
}
