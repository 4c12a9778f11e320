// The fields of a word, and the immediate of each format: a function each, by the manual's name. `field` is what they share.
ghost use Rattle.std.specs.Prelude.{◌≡◌, ◌+◌, ◌-◌, ◌<◌, ◌≤◌};
ghost use Rattle.rv32i.specs.Fields.{bits, opcode_of, rd_of, funct3_of, rs1_of, rs2_of, funct7_of};
ghost use Rattle.rv32i.specs.Fields.{imm_i, imm_s, imm_b, imm_u, imm_j};

// Bits hi down to lo of a word.
pub(crate) fn field(word: u32, hi: u32, lo: u32) -> u32
    requires { (lo ≤ hi) × ((hi < 32) × (hi - lo < 31)) }
    ensures { result ≡ bits word hi lo }
{
    (word >> lo) % (1u32 << (hi + 1 - lo))
}

pub(crate) fn opcode(word: u32) -> u32
    ensures { result ≡ opcode_of word }
{
    field(word, 6, 0)
}

pub(crate) fn rd(word: u32) -> u8
    ensures { result ≡ rd_of word }
{
    field(word, 11, 7) as u8
}

pub(crate) fn funct3(word: u32) -> u32
    ensures { result ≡ funct3_of word }
{
    field(word, 14, 12)
}

pub(crate) fn rs1(word: u32) -> u8
    ensures { result ≡ rs1_of word }
{
    field(word, 19, 15) as u8
}

pub(crate) fn rs2(word: u32) -> u8
    ensures { result ≡ rs2_of word }
{
    field(word, 24, 20) as u8
}

pub(crate) fn funct7(word: u32) -> u32
    ensures { result ≡ funct7_of word }
{
    field(word, 31, 25)
}

pub(crate) fn imm_i(word: u32) -> i32
    ensures { result ≡ imm_i word }
{
    word.cast_signed() >> 20
}

pub(crate) fn imm_s(word: u32) -> i32
    ensures { result ≡ imm_s word }
{
    let raw = (field(word, 31, 25) << 5) + field(word, 11, 7);
    (raw << 20).cast_signed() >> 20
}

pub(crate) fn imm_b(word: u32) -> i32
    ensures { result ≡ imm_b word }
{
    let raw = (field(word, 31, 31) << 12)
        + (field(word, 7, 7) << 11)
        + (field(word, 30, 25) << 5)
        + (field(word, 11, 8) << 1);
    (raw << 19).cast_signed() >> 19
}

pub(crate) fn imm_u(word: u32) -> i32
    ensures { result ≡ imm_u word }
{
    (field(word, 31, 12) << 12).cast_signed()
}

pub(crate) fn imm_j(word: u32) -> i32
    ensures { result ≡ imm_j word }
{
    let raw = (field(word, 31, 31) << 20)
        + (field(word, 19, 12) << 12)
        + (field(word, 20, 20) << 11)
        + (field(word, 30, 21) << 1);
    (raw << 11).cast_signed() >> 11
}
