ghost use Rattle.std.specs.Prelude.{◌≡◌, ◌<◌, ◌↔◌, ◌%◌, ◌^◌, IsTrue};
ghost use Rattle.rv_form.specs.Formats.{IsWithin, IsEvenWithin, IsAmount};

/// An instruction of RV64I or M (the RISC-V unprivileged manual) with its operands, in the order of the
/// manual's formats.
///
/// Registers are numbered 0 to 31. An immediate is the signed number that the instruction means: a
/// branch's and a jump's is a distance in bytes, that of `Lui` and `Auipc` counts 4,096 bytes, and a
/// shift's is its amount. `Fence` keeps the fields of its word, which mean nothing here.
#[derive(Clone, Copy, Debug, PartialEq, Eq)]
pub enum Instr {
    Lui { rd: u8, imm: i32 },
    Auipc { rd: u8, imm: i32 },
    Jal { rd: u8, imm: i32 },
    Jalr { rd: u8, rs1: u8, imm: i32 },
    Beq { rs1: u8, rs2: u8, imm: i32 },
    Bne { rs1: u8, rs2: u8, imm: i32 },
    Blt { rs1: u8, rs2: u8, imm: i32 },
    Bge { rs1: u8, rs2: u8, imm: i32 },
    Bltu { rs1: u8, rs2: u8, imm: i32 },
    Bgeu { rs1: u8, rs2: u8, imm: i32 },
    Lb { rd: u8, rs1: u8, imm: i32 },
    Lh { rd: u8, rs1: u8, imm: i32 },
    Lw { rd: u8, rs1: u8, imm: i32 },
    Ld { rd: u8, rs1: u8, imm: i32 },
    Lbu { rd: u8, rs1: u8, imm: i32 },
    Lhu { rd: u8, rs1: u8, imm: i32 },
    Lwu { rd: u8, rs1: u8, imm: i32 },
    Sb { rs1: u8, rs2: u8, imm: i32 },
    Sh { rs1: u8, rs2: u8, imm: i32 },
    Sw { rs1: u8, rs2: u8, imm: i32 },
    Sd { rs1: u8, rs2: u8, imm: i32 },
    Addi { rd: u8, rs1: u8, imm: i32 },
    Slti { rd: u8, rs1: u8, imm: i32 },
    Sltiu { rd: u8, rs1: u8, imm: i32 },
    Xori { rd: u8, rs1: u8, imm: i32 },
    Ori { rd: u8, rs1: u8, imm: i32 },
    Andi { rd: u8, rs1: u8, imm: i32 },
    Slli { rd: u8, rs1: u8, imm: i32 },
    Srli { rd: u8, rs1: u8, imm: i32 },
    Srai { rd: u8, rs1: u8, imm: i32 },
    Add { rd: u8, rs1: u8, rs2: u8 },
    Sub { rd: u8, rs1: u8, rs2: u8 },
    Sll { rd: u8, rs1: u8, rs2: u8 },
    Slt { rd: u8, rs1: u8, rs2: u8 },
    Sltu { rd: u8, rs1: u8, rs2: u8 },
    Xor { rd: u8, rs1: u8, rs2: u8 },
    Srl { rd: u8, rs1: u8, rs2: u8 },
    Sra { rd: u8, rs1: u8, rs2: u8 },
    Or { rd: u8, rs1: u8, rs2: u8 },
    And { rd: u8, rs1: u8, rs2: u8 },
    Mul { rd: u8, rs1: u8, rs2: u8 },
    Mulh { rd: u8, rs1: u8, rs2: u8 },
    Mulhsu { rd: u8, rs1: u8, rs2: u8 },
    Mulhu { rd: u8, rs1: u8, rs2: u8 },
    Div { rd: u8, rs1: u8, rs2: u8 },
    Divu { rd: u8, rs1: u8, rs2: u8 },
    Rem { rd: u8, rs1: u8, rs2: u8 },
    Remu { rd: u8, rs1: u8, rs2: u8 },
    Addiw { rd: u8, rs1: u8, imm: i32 },
    Slliw { rd: u8, rs1: u8, imm: i32 },
    Srliw { rd: u8, rs1: u8, imm: i32 },
    Sraiw { rd: u8, rs1: u8, imm: i32 },
    Addw { rd: u8, rs1: u8, rs2: u8 },
    Subw { rd: u8, rs1: u8, rs2: u8 },
    Sllw { rd: u8, rs1: u8, rs2: u8 },
    Srlw { rd: u8, rs1: u8, rs2: u8 },
    Sraw { rd: u8, rs1: u8, rs2: u8 },
    Mulw { rd: u8, rs1: u8, rs2: u8 },
    Divw { rd: u8, rs1: u8, rs2: u8 },
    Divuw { rd: u8, rs1: u8, rs2: u8 },
    Remw { rd: u8, rs1: u8, rs2: u8 },
    Remuw { rd: u8, rs1: u8, rs2: u8 },
    Fence { rd: u8, rs1: u8, imm: i32 },
    Ecall,
    Ebreak,
}

impl Instr {
    ghost use Rattle.rv_form.specs.Instruction.{IsValid};

    /// Whether the instruction has a word: its registers are below 32, and its immediate is in its
    /// format's range, and even where it is the distance of a branch or of a jump.
    pub fn is_valid(self) -> bool
        ensures { IsTrue result ↔ IsValid self }
    {
        match self {
            Instr::Lui { rd, imm } => in_upper(rd, imm),
            Instr::Auipc { rd, imm } => in_upper(rd, imm),
            Instr::Jal { rd, imm } => in_jump(rd, imm),
            Instr::Jalr { rd, rs1, imm } => in_immediate(rd, rs1, imm),
            Instr::Beq { rs1, rs2, imm } => in_branch(rs1, rs2, imm),
            Instr::Bne { rs1, rs2, imm } => in_branch(rs1, rs2, imm),
            Instr::Blt { rs1, rs2, imm } => in_branch(rs1, rs2, imm),
            Instr::Bge { rs1, rs2, imm } => in_branch(rs1, rs2, imm),
            Instr::Bltu { rs1, rs2, imm } => in_branch(rs1, rs2, imm),
            Instr::Bgeu { rs1, rs2, imm } => in_branch(rs1, rs2, imm),
            Instr::Lb { rd, rs1, imm } => in_immediate(rd, rs1, imm),
            Instr::Lh { rd, rs1, imm } => in_immediate(rd, rs1, imm),
            Instr::Lw { rd, rs1, imm } => in_immediate(rd, rs1, imm),
            Instr::Ld { rd, rs1, imm } => in_immediate(rd, rs1, imm),
            Instr::Lbu { rd, rs1, imm } => in_immediate(rd, rs1, imm),
            Instr::Lhu { rd, rs1, imm } => in_immediate(rd, rs1, imm),
            Instr::Lwu { rd, rs1, imm } => in_immediate(rd, rs1, imm),
            Instr::Sb { rs1, rs2, imm } => in_immediate(rs1, rs2, imm),
            Instr::Sh { rs1, rs2, imm } => in_immediate(rs1, rs2, imm),
            Instr::Sw { rs1, rs2, imm } => in_immediate(rs1, rs2, imm),
            Instr::Sd { rs1, rs2, imm } => in_immediate(rs1, rs2, imm),
            Instr::Addi { rd, rs1, imm } => in_immediate(rd, rs1, imm),
            Instr::Slti { rd, rs1, imm } => in_immediate(rd, rs1, imm),
            Instr::Sltiu { rd, rs1, imm } => in_immediate(rd, rs1, imm),
            Instr::Xori { rd, rs1, imm } => in_immediate(rd, rs1, imm),
            Instr::Ori { rd, rs1, imm } => in_immediate(rd, rs1, imm),
            Instr::Andi { rd, rs1, imm } => in_immediate(rd, rs1, imm),
            Instr::Slli { rd, rs1, imm } => in_amount(rd, rs1, imm, 64),
            Instr::Srli { rd, rs1, imm } => in_amount(rd, rs1, imm, 64),
            Instr::Srai { rd, rs1, imm } => in_amount(rd, rs1, imm, 64),
            Instr::Add { rd, rs1, rs2 } => in_registers(rd, rs1, rs2),
            Instr::Sub { rd, rs1, rs2 } => in_registers(rd, rs1, rs2),
            Instr::Sll { rd, rs1, rs2 } => in_registers(rd, rs1, rs2),
            Instr::Slt { rd, rs1, rs2 } => in_registers(rd, rs1, rs2),
            Instr::Sltu { rd, rs1, rs2 } => in_registers(rd, rs1, rs2),
            Instr::Xor { rd, rs1, rs2 } => in_registers(rd, rs1, rs2),
            Instr::Srl { rd, rs1, rs2 } => in_registers(rd, rs1, rs2),
            Instr::Sra { rd, rs1, rs2 } => in_registers(rd, rs1, rs2),
            Instr::Or { rd, rs1, rs2 } => in_registers(rd, rs1, rs2),
            Instr::And { rd, rs1, rs2 } => in_registers(rd, rs1, rs2),
            Instr::Mul { rd, rs1, rs2 } => in_registers(rd, rs1, rs2),
            Instr::Mulh { rd, rs1, rs2 } => in_registers(rd, rs1, rs2),
            Instr::Mulhsu { rd, rs1, rs2 } => in_registers(rd, rs1, rs2),
            Instr::Mulhu { rd, rs1, rs2 } => in_registers(rd, rs1, rs2),
            Instr::Div { rd, rs1, rs2 } => in_registers(rd, rs1, rs2),
            Instr::Divu { rd, rs1, rs2 } => in_registers(rd, rs1, rs2),
            Instr::Rem { rd, rs1, rs2 } => in_registers(rd, rs1, rs2),
            Instr::Remu { rd, rs1, rs2 } => in_registers(rd, rs1, rs2),
            Instr::Addiw { rd, rs1, imm } => in_immediate(rd, rs1, imm),
            Instr::Slliw { rd, rs1, imm } => in_amount(rd, rs1, imm, 32),
            Instr::Srliw { rd, rs1, imm } => in_amount(rd, rs1, imm, 32),
            Instr::Sraiw { rd, rs1, imm } => in_amount(rd, rs1, imm, 32),
            Instr::Addw { rd, rs1, rs2 } => in_registers(rd, rs1, rs2),
            Instr::Subw { rd, rs1, rs2 } => in_registers(rd, rs1, rs2),
            Instr::Sllw { rd, rs1, rs2 } => in_registers(rd, rs1, rs2),
            Instr::Srlw { rd, rs1, rs2 } => in_registers(rd, rs1, rs2),
            Instr::Sraw { rd, rs1, rs2 } => in_registers(rd, rs1, rs2),
            Instr::Mulw { rd, rs1, rs2 } => in_registers(rd, rs1, rs2),
            Instr::Divw { rd, rs1, rs2 } => in_registers(rd, rs1, rs2),
            Instr::Divuw { rd, rs1, rs2 } => in_registers(rd, rs1, rs2),
            Instr::Remw { rd, rs1, rs2 } => in_registers(rd, rs1, rs2),
            Instr::Remuw { rd, rs1, rs2 } => in_registers(rd, rs1, rs2),
            Instr::Fence { rd, rs1, imm } => in_immediate(rd, rs1, imm),
            Instr::Ecall => true,
            Instr::Ebreak => true,
        }
    }
}

fn in_registers(rd: u8, rs1: u8, rs2: u8) -> bool
    ensures { IsTrue result ↔ (rd < 32) × (rs1 < 32) × (rs2 < 32) }
{
    rd < 32 && rs1 < 32 && rs2 < 32
}

fn in_immediate(one: u8, other: u8, imm: i32) -> bool
    ensures { IsTrue result ↔ (one < 32) × (other < 32) × IsWithin (2 ^ 11) imm }
{
    one < 32 && other < 32 && is_within(imm, 0x800)
}

fn in_amount(rd: u8, rs1: u8, imm: i32, bound: u32) -> bool
    requires { bound < 2 ^ 31 }
    ensures { IsTrue result ↔ (rd < 32) × (rs1 < 32) × IsAmount bound imm }
{
    rd < 32 && rs1 < 32 && 0 <= imm && imm < bound.cast_signed()
}

fn in_branch(rs1: u8, rs2: u8, imm: i32) -> bool
    ensures { IsTrue result ↔ (rs1 < 32) × (rs2 < 32) × IsEvenWithin (2 ^ 12) imm }
{
    rs1 < 32 && rs2 < 32 && is_even_within(imm, 0x1000)
}

fn in_upper(rd: u8, imm: i32) -> bool
    ensures { IsTrue result ↔ (rd < 32) × IsWithin (2 ^ 19) imm }
{
    rd < 32 && is_within(imm, 0x8_0000)
}

fn in_jump(rd: u8, imm: i32) -> bool
    ensures { IsTrue result ↔ (rd < 32) × IsEvenWithin (2 ^ 20) imm }
{
    rd < 32 && is_even_within(imm, 0x10_0000)
}

fn is_within(imm: i32, half: u32) -> bool
    requires { half < 2 ^ 31 }
    ensures { IsTrue result ↔ IsWithin half imm }
{
    let half = half.cast_signed();
    -half <= imm && imm < half
}

fn is_even_within(imm: i32, half: u32) -> bool
    requires { half < 2 ^ 31 }
    ensures { IsTrue result ↔ IsEvenWithin half imm }
{
    is_within(imm, half) && imm.unsigned_abs() % 2 == 0
}
