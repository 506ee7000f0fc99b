ghost use Rattle.std.specs.Prelude.{◌≡◌, ◌+◌, ◌*◌, ◌<◌, ◌<ℤ◌, pos, unsigned_abs};
ghost use Rattle.rv_form.specs.Numbers.{low_part};
ghost use Rattle.rv_form.specs.Formats.{r_word, i_word, shift6_word, shift5_word, s_word, b_word, u_word, j_word};
ghost use Rattle.rv_form.specs.Instruction.{IsValid, word_of};

use rv_form::Instr;

/// The word of an instruction, whose registers and immediate are in their ranges.
pub fn encode(instr: Instr) -> u32
    requires { IsValid instr }
    ensures { result ≡ word_of instr }
{
    word(instr) as u32
}

fn word(instr: Instr) -> u64
    ensures { result ≡ word_of instr }
{
    match instr {
        Instr::Lui { rd, imm } => u_word(0x37, rd, imm),
        Instr::Auipc { rd, imm } => u_word(0x17, rd, imm),
        Instr::Jal { rd, imm } => j_word(0x6f, rd, imm),
        Instr::Jalr { rd, rs1, imm } => i_word(0x67, 0, rd, rs1, imm),
        Instr::Beq { rs1, rs2, imm } => b_word(0x63, 0, rs1, rs2, imm),
        Instr::Bne { rs1, rs2, imm } => b_word(0x63, 1, rs1, rs2, imm),
        Instr::Blt { rs1, rs2, imm } => b_word(0x63, 4, rs1, rs2, imm),
        Instr::Bge { rs1, rs2, imm } => b_word(0x63, 5, rs1, rs2, imm),
        Instr::Bltu { rs1, rs2, imm } => b_word(0x63, 6, rs1, rs2, imm),
        Instr::Bgeu { rs1, rs2, imm } => b_word(0x63, 7, rs1, rs2, imm),
        Instr::Lb { rd, rs1, imm } => i_word(0x03, 0, rd, rs1, imm),
        Instr::Lh { rd, rs1, imm } => i_word(0x03, 1, rd, rs1, imm),
        Instr::Lw { rd, rs1, imm } => i_word(0x03, 2, rd, rs1, imm),
        Instr::Ld { rd, rs1, imm } => i_word(0x03, 3, rd, rs1, imm),
        Instr::Lbu { rd, rs1, imm } => i_word(0x03, 4, rd, rs1, imm),
        Instr::Lhu { rd, rs1, imm } => i_word(0x03, 5, rd, rs1, imm),
        Instr::Lwu { rd, rs1, imm } => i_word(0x03, 6, rd, rs1, imm),
        Instr::Sb { rs1, rs2, imm } => s_word(0x23, 0, rs1, rs2, imm),
        Instr::Sh { rs1, rs2, imm } => s_word(0x23, 1, rs1, rs2, imm),
        Instr::Sw { rs1, rs2, imm } => s_word(0x23, 2, rs1, rs2, imm),
        Instr::Sd { rs1, rs2, imm } => s_word(0x23, 3, rs1, rs2, imm),
        Instr::Addi { rd, rs1, imm } => i_word(0x13, 0, rd, rs1, imm),
        Instr::Slti { rd, rs1, imm } => i_word(0x13, 2, rd, rs1, imm),
        Instr::Sltiu { rd, rs1, imm } => i_word(0x13, 3, rd, rs1, imm),
        Instr::Xori { rd, rs1, imm } => i_word(0x13, 4, rd, rs1, imm),
        Instr::Ori { rd, rs1, imm } => i_word(0x13, 6, rd, rs1, imm),
        Instr::Andi { rd, rs1, imm } => i_word(0x13, 7, rd, rs1, imm),
        Instr::Slli { rd, rs1, imm } => shift6_word(0x13, 1, 0, rd, rs1, imm),
        Instr::Srli { rd, rs1, imm } => shift6_word(0x13, 5, 0, rd, rs1, imm),
        Instr::Srai { rd, rs1, imm } => shift6_word(0x13, 5, 0x10, rd, rs1, imm),
        Instr::Add { rd, rs1, rs2 } => r_word(0x33, 0, 0, rd, rs1, rs2),
        Instr::Sub { rd, rs1, rs2 } => r_word(0x33, 0, 0x20, rd, rs1, rs2),
        Instr::Sll { rd, rs1, rs2 } => r_word(0x33, 1, 0, rd, rs1, rs2),
        Instr::Slt { rd, rs1, rs2 } => r_word(0x33, 2, 0, rd, rs1, rs2),
        Instr::Sltu { rd, rs1, rs2 } => r_word(0x33, 3, 0, rd, rs1, rs2),
        Instr::Xor { rd, rs1, rs2 } => r_word(0x33, 4, 0, rd, rs1, rs2),
        Instr::Srl { rd, rs1, rs2 } => r_word(0x33, 5, 0, rd, rs1, rs2),
        Instr::Sra { rd, rs1, rs2 } => r_word(0x33, 5, 0x20, rd, rs1, rs2),
        Instr::Or { rd, rs1, rs2 } => r_word(0x33, 6, 0, rd, rs1, rs2),
        Instr::And { rd, rs1, rs2 } => r_word(0x33, 7, 0, rd, rs1, rs2),
        Instr::Mul { rd, rs1, rs2 } => r_word(0x33, 0, 1, rd, rs1, rs2),
        Instr::Mulh { rd, rs1, rs2 } => r_word(0x33, 1, 1, rd, rs1, rs2),
        Instr::Mulhsu { rd, rs1, rs2 } => r_word(0x33, 2, 1, rd, rs1, rs2),
        Instr::Mulhu { rd, rs1, rs2 } => r_word(0x33, 3, 1, rd, rs1, rs2),
        Instr::Div { rd, rs1, rs2 } => r_word(0x33, 4, 1, rd, rs1, rs2),
        Instr::Divu { rd, rs1, rs2 } => r_word(0x33, 5, 1, rd, rs1, rs2),
        Instr::Rem { rd, rs1, rs2 } => r_word(0x33, 6, 1, rd, rs1, rs2),
        Instr::Remu { rd, rs1, rs2 } => r_word(0x33, 7, 1, rd, rs1, rs2),
        Instr::Addiw { rd, rs1, imm } => i_word(0x1b, 0, rd, rs1, imm),
        Instr::Slliw { rd, rs1, imm } => shift5_word(0x1b, 1, 0, rd, rs1, imm),
        Instr::Srliw { rd, rs1, imm } => shift5_word(0x1b, 5, 0, rd, rs1, imm),
        Instr::Sraiw { rd, rs1, imm } => shift5_word(0x1b, 5, 0x20, rd, rs1, imm),
        Instr::Addw { rd, rs1, rs2 } => r_word(0x3b, 0, 0, rd, rs1, rs2),
        Instr::Subw { rd, rs1, rs2 } => r_word(0x3b, 0, 0x20, rd, rs1, rs2),
        Instr::Sllw { rd, rs1, rs2 } => r_word(0x3b, 1, 0, rd, rs1, rs2),
        Instr::Srlw { rd, rs1, rs2 } => r_word(0x3b, 5, 0, rd, rs1, rs2),
        Instr::Sraw { rd, rs1, rs2 } => r_word(0x3b, 5, 0x20, rd, rs1, rs2),
        Instr::Mulw { rd, rs1, rs2 } => r_word(0x3b, 0, 1, rd, rs1, rs2),
        Instr::Divw { rd, rs1, rs2 } => r_word(0x3b, 4, 1, rd, rs1, rs2),
        Instr::Divuw { rd, rs1, rs2 } => r_word(0x3b, 5, 1, rd, rs1, rs2),
        Instr::Remw { rd, rs1, rs2 } => r_word(0x3b, 6, 1, rd, rs1, rs2),
        Instr::Remuw { rd, rs1, rs2 } => r_word(0x3b, 7, 1, rd, rs1, rs2),
        Instr::Fence { rd, rs1, imm } => i_word(0x0f, 0, rd, rs1, imm),
        Instr::Ecall => 0x73,
        Instr::Ebreak => 0x10_0073,
    }
}

/// The fields that words with a result and a first operand share.
fn shared_fields(opcode: u8, funct3: u8, rd: u8, rs1: u8) -> u64
    ensures { result ≡ opcode + 0x80 * rd + 0x1000 * funct3 + 0x8000 * rs1 }
{
    u64::from(opcode) + 0x80 * u64::from(rd) + 0x1000 * u64::from(funct3) + 0x8000 * u64::from(rs1)
}

fn r_word(opcode: u8, funct3: u8, funct7: u8, rd: u8, rs1: u8, rs2: u8) -> u64
    ensures { result ≡ r_word opcode funct3 funct7 rd rs1 rs2 }
{
    shared_fields(opcode, funct3, rd, rs1)
        + 0x10_0000 * u64::from(rs2)
        + 0x200_0000 * u64::from(funct7)
}

fn i_word(opcode: u8, funct3: u8, rd: u8, rs1: u8, imm: i32) -> u64
    ensures { result ≡ i_word opcode funct3 rd rs1 imm }
{
    shared_fields(opcode, funct3, rd, rs1) + 0x10_0000 * low_bits(imm, 0x1000)
}

/// A shift by an amount of six bits, and the six bits above it.
fn shift6_word(opcode: u8, funct3: u8, above: u8, rd: u8, rs1: u8, imm: i32) -> u64
    ensures { result ≡ shift6_word opcode funct3 above rd rs1 imm }
{
    shared_fields(opcode, funct3, rd, rs1)
        + 0x10_0000 * low_bits(imm, 64)
        + 0x400_0000 * u64::from(above)
}

/// A shift by an amount of five bits, and the seven bits above it.
fn shift5_word(opcode: u8, funct3: u8, above: u8, rd: u8, rs1: u8, imm: i32) -> u64
    ensures { result ≡ shift5_word opcode funct3 above rd rs1 imm }
{
    shared_fields(opcode, funct3, rd, rs1)
        + 0x10_0000 * low_bits(imm, 32)
        + 0x200_0000 * u64::from(above)
}

fn s_word(opcode: u8, funct3: u8, rs1: u8, rs2: u8, imm: i32) -> u64
    ensures { result ≡ s_word opcode funct3 rs1 rs2 imm }
{
    let bits = low_bits(imm, 0x1000);
    let fields = 0x80 * (bits % 32) + 0x200_0000 * (bits / 32);
    u64::from(opcode)
        + 0x1000 * u64::from(funct3)
        + 0x8000 * u64::from(rs1)
        + 0x10_0000 * u64::from(rs2)
        + fields
}

fn b_word(opcode: u8, funct3: u8, rs1: u8, rs2: u8, imm: i32) -> u64
    ensures { result ≡ b_word opcode funct3 rs1 rs2 imm }
{
    let bits = low_bits(imm, 0x2000);
    let fields = 0x80 * (bits / 0x800 % 2)
        + 0x100 * (bits / 2 % 16)
        + 0x200_0000 * (bits / 32 % 64)
        + 0x8000_0000 * (bits / 0x1000 % 2);
    u64::from(opcode)
        + 0x1000 * u64::from(funct3)
        + 0x8000 * u64::from(rs1)
        + 0x10_0000 * u64::from(rs2)
        + fields
}

fn u_word(opcode: u8, rd: u8, imm: i32) -> u64
    ensures { result ≡ u_word opcode rd imm }
{
    u64::from(opcode) + 0x80 * u64::from(rd) + 0x1000 * low_bits(imm, 0x10_0000)
}

fn j_word(opcode: u8, rd: u8, imm: i32) -> u64
    ensures { result ≡ j_word opcode rd imm }
{
    let bits = low_bits(imm, 0x20_0000);
    let fields = 0x1000 * (bits / 0x1000 % 256)
        + 0x10_0000 * (bits / 0x800 % 2)
        + 0x20_0000 * (bits / 2 % 1024)
        + 0x8000_0000 * (bits / 0x10_0000 % 2);
    u64::from(opcode) + 0x80 * u64::from(rd) + fields
}

/// What a field of `values` values holds of a signed number.
fn low_bits(imm: i32, values: i32) -> u64
    requires positive { pos 0 <ℤ values }
    ensures value { result ≡ low_part (unsigned_abs values) imm }
    ensures small { result < unsigned_abs values }
{
    u64::from(imm.rem_euclid(values).cast_unsigned())
}
