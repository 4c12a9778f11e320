// The operations that share a format, by their mnemonics, and the codes that tell them apart.
// `from_funct3` or `from_functs`, `funct3` and `funct7` of the six types are six tables with nothing in common but
// their form: a trait over them would hold the same tables, and no caller is generic.
ghost use Rattle.std.specs.Prelude.{◌≡◌};
ghost use Rattle.rv32i.specs.Table.{branch3, load3, store3, imm3, shift3, shift7, reg3, reg7};
ghost use Rattle.rv32i.specs.Table.{branch_at, load_at, store_at, imm_at, shift_at, reg_at};

#[derive(Clone, Copy)]
pub enum BranchOp {
    Beq,
    Bne,
    Blt,
    Bge,
    Bltu,
    Bgeu,
}

#[derive(Clone, Copy)]
pub enum LoadOp {
    Lb,
    Lh,
    Lw,
    Lbu,
    Lhu,
}

#[derive(Clone, Copy)]
pub enum StoreOp {
    Sb,
    Sh,
    Sw,
}

// The operations on a register and an immediate, but for the shifts.
#[derive(Clone, Copy)]
pub enum ImmOp {
    Addi,
    Slti,
    Sltiu,
    Xori,
    Ori,
    Andi,
}

#[derive(Clone, Copy)]
pub enum ShiftOp {
    Slli,
    Srli,
    Srai,
}

#[derive(Clone, Copy)]
pub enum RegOp {
    Add,
    Sub,
    Sll,
    Slt,
    Sltu,
    Xor,
    Srl,
    Sra,
    Or,
    And,
}

impl BranchOp {
    pub(crate) fn from_funct3(funct3: u32) -> Option<BranchOp>
        ensures { result ≡ branch_at funct3 }
    {
        match funct3 {
            0 => Some(BranchOp::Beq),
            1 => Some(BranchOp::Bne),
            4 => Some(BranchOp::Blt),
            5 => Some(BranchOp::Bge),
            6 => Some(BranchOp::Bltu),
            7 => Some(BranchOp::Bgeu),
            _ => None,
        }
    }

    pub(crate) fn funct3(self) -> u32
        ensures { result ≡ branch3 self }
    {
        match self {
            BranchOp::Beq => 0,
            BranchOp::Bne => 1,
            BranchOp::Blt => 4,
            BranchOp::Bge => 5,
            BranchOp::Bltu => 6,
            BranchOp::Bgeu => 7,
        }
    }
}

impl LoadOp {
    pub(crate) fn from_funct3(funct3: u32) -> Option<LoadOp>
        ensures { result ≡ load_at funct3 }
    {
        match funct3 {
            0 => Some(LoadOp::Lb),
            1 => Some(LoadOp::Lh),
            2 => Some(LoadOp::Lw),
            4 => Some(LoadOp::Lbu),
            5 => Some(LoadOp::Lhu),
            _ => None,
        }
    }

    pub(crate) fn funct3(self) -> u32
        ensures { result ≡ load3 self }
    {
        match self {
            LoadOp::Lb => 0,
            LoadOp::Lh => 1,
            LoadOp::Lw => 2,
            LoadOp::Lbu => 4,
            LoadOp::Lhu => 5,
        }
    }
}

impl StoreOp {
    pub(crate) fn from_funct3(funct3: u32) -> Option<StoreOp>
        ensures { result ≡ store_at funct3 }
    {
        match funct3 {
            0 => Some(StoreOp::Sb),
            1 => Some(StoreOp::Sh),
            2 => Some(StoreOp::Sw),
            _ => None,
        }
    }

    pub(crate) fn funct3(self) -> u32
        ensures { result ≡ store3 self }
    {
        match self {
            StoreOp::Sb => 0,
            StoreOp::Sh => 1,
            StoreOp::Sw => 2,
        }
    }
}

impl ImmOp {
    pub(crate) fn from_funct3(funct3: u32) -> Option<ImmOp>
        ensures { result ≡ imm_at funct3 }
    {
        match funct3 {
            0 => Some(ImmOp::Addi),
            2 => Some(ImmOp::Slti),
            3 => Some(ImmOp::Sltiu),
            4 => Some(ImmOp::Xori),
            6 => Some(ImmOp::Ori),
            7 => Some(ImmOp::Andi),
            _ => None,
        }
    }

    pub(crate) fn funct3(self) -> u32
        ensures { result ≡ imm3 self }
    {
        match self {
            ImmOp::Addi => 0,
            ImmOp::Slti => 2,
            ImmOp::Sltiu => 3,
            ImmOp::Xori => 4,
            ImmOp::Ori => 6,
            ImmOp::Andi => 7,
        }
    }
}

impl ShiftOp {
    pub(crate) fn from_functs(funct3: u32, funct7: u32) -> Option<ShiftOp>
        ensures { result ≡ shift_at funct3 funct7 }
    {
        match (funct3, funct7) {
            (1, 0) => Some(ShiftOp::Slli),
            (5, 0) => Some(ShiftOp::Srli),
            (5, 0x20) => Some(ShiftOp::Srai),
            _ => None,
        }
    }

    pub(crate) fn funct3(self) -> u32
        ensures { result ≡ shift3 self }
    {
        match self {
            ShiftOp::Slli => 1,
            ShiftOp::Srli => 5,
            ShiftOp::Srai => 5,
        }
    }

    pub(crate) fn funct7(self) -> u32
        ensures { result ≡ shift7 self }
    {
        match self {
            ShiftOp::Slli => 0,
            ShiftOp::Srli => 0,
            ShiftOp::Srai => 0x20,
        }
    }
}

impl RegOp {
    pub(crate) fn from_functs(funct3: u32, funct7: u32) -> Option<RegOp>
        ensures { result ≡ reg_at funct3 funct7 }
    {
        match (funct3, funct7) {
            (0, 0) => Some(RegOp::Add),
            (0, 0x20) => Some(RegOp::Sub),
            (1, 0) => Some(RegOp::Sll),
            (2, 0) => Some(RegOp::Slt),
            (3, 0) => Some(RegOp::Sltu),
            (4, 0) => Some(RegOp::Xor),
            (5, 0) => Some(RegOp::Srl),
            (5, 0x20) => Some(RegOp::Sra),
            (6, 0) => Some(RegOp::Or),
            (7, 0) => Some(RegOp::And),
            _ => None,
        }
    }

    pub(crate) fn funct3(self) -> u32
        ensures { result ≡ reg3 self }
    {
        match self {
            RegOp::Add => 0,
            RegOp::Sub => 0,
            RegOp::Sll => 1,
            RegOp::Slt => 2,
            RegOp::Sltu => 3,
            RegOp::Xor => 4,
            RegOp::Srl => 5,
            RegOp::Sra => 5,
            RegOp::Or => 6,
            RegOp::And => 7,
        }
    }

    pub(crate) fn funct7(self) -> u32
        ensures { result ≡ reg7 self }
    {
        match self {
            RegOp::Sub | RegOp::Sra => 0x20,
            _ => 0,
        }
    }
}
