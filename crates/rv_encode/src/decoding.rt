ghost use Rattle.std.specs.Prelude.{◌≡◌, ◌*◌, ◌<◌, ◌^◌, ◌⊎◌};
ghost use Rattle.rv_form.specs.Numbers.{signed};
ghost use Rattle.rv_form.specs.Formats.{opcode_of, funct3_of, funct7_of, above6_of, rd_of, rs1_of, rs2_of, i_imm, shift6_imm, shift5_imm, s_imm, b_imm, u_imm, j_imm};
ghost use Rattle.rv_form.specs.Instruction.{instruction_of};

use rv_form::Instr;

/// The instruction that a word is. `None` says that no row of the table has it.
pub fn decode(word: u32) -> Option<Instr>
    ensures { result ≡ instruction_of word }
{
    match word % 0x80 {
        0x37 => Some(Instr::Lui {
            rd: rd(word),
            imm: upper(word),
        }),
        0x17 => Some(Instr::Auipc {
            rd: rd(word),
            imm: upper(word),
        }),
        0x6f => Some(Instr::Jal {
            rd: rd(word),
            imm: jump_distance(word),
        }),
        0x67 => jump_to_register(word),
        0x63 => branch(word),
        0x03 => load(word),
        0x23 => store(word),
        0x13 => with_immediate(word),
        0x33 => operation(word),
        0x1b => narrow_with_immediate(word),
        0x3b => narrow_operation(word),
        0x0f => fence(word),
        0x73 => system(word),
        _ => None,
    }
}

fn jump_to_register(word: u32) -> Option<Instr>
    requires { opcode_of word ≡ 0x67 }
    ensures { result ≡ instruction_of word }
{
    let (rd, rs1, imm) = (rd(word), rs1(word), immediate(word));
    match funct3(word) {
        0 => Some(Instr::Jalr { rd, rs1, imm }),
        _ => None,
    }
}

fn branch(word: u32) -> Option<Instr>
    requires { opcode_of word ≡ 0x63 }
    ensures { result ≡ instruction_of word }
{
    let (rs1, rs2, imm) = (rs1(word), rs2(word), branch_distance(word));
    match funct3(word) {
        0 => Some(Instr::Beq { rs1, rs2, imm }),
        1 => Some(Instr::Bne { rs1, rs2, imm }),
        4 => Some(Instr::Blt { rs1, rs2, imm }),
        5 => Some(Instr::Bge { rs1, rs2, imm }),
        6 => Some(Instr::Bltu { rs1, rs2, imm }),
        7 => Some(Instr::Bgeu { rs1, rs2, imm }),
        _ => None,
    }
}

fn load(word: u32) -> Option<Instr>
    requires { opcode_of word ≡ 0x03 }
    ensures { result ≡ instruction_of word }
{
    let (rd, rs1, imm) = (rd(word), rs1(word), immediate(word));
    match funct3(word) {
        0 => Some(Instr::Lb { rd, rs1, imm }),
        1 => Some(Instr::Lh { rd, rs1, imm }),
        2 => Some(Instr::Lw { rd, rs1, imm }),
        3 => Some(Instr::Ld { rd, rs1, imm }),
        4 => Some(Instr::Lbu { rd, rs1, imm }),
        5 => Some(Instr::Lhu { rd, rs1, imm }),
        6 => Some(Instr::Lwu { rd, rs1, imm }),
        _ => None,
    }
}

fn store(word: u32) -> Option<Instr>
    requires { opcode_of word ≡ 0x23 }
    ensures { result ≡ instruction_of word }
{
    let (rs1, rs2, imm) = (rs1(word), rs2(word), store_offset(word));
    match funct3(word) {
        0 => Some(Instr::Sb { rs1, rs2, imm }),
        1 => Some(Instr::Sh { rs1, rs2, imm }),
        2 => Some(Instr::Sw { rs1, rs2, imm }),
        3 => Some(Instr::Sd { rs1, rs2, imm }),
        _ => None,
    }
}

fn with_immediate(word: u32) -> Option<Instr>
    requires { opcode_of word ≡ 0x13 }
    ensures { result ≡ instruction_of word }
{
    let (rd, rs1, imm) = (rd(word), rs1(word), immediate(word));
    match funct3(word) {
        0 => Some(Instr::Addi { rd, rs1, imm }),
        2 => Some(Instr::Slti { rd, rs1, imm }),
        3 => Some(Instr::Sltiu { rd, rs1, imm }),
        4 => Some(Instr::Xori { rd, rs1, imm }),
        6 => Some(Instr::Ori { rd, rs1, imm }),
        7 => Some(Instr::Andi { rd, rs1, imm }),
        _ => shift(word),
    }
}

/// One of the shifts by six bits, or none.
fn shift(word: u32) -> Option<Instr>
    requires opcode { opcode_of word ≡ 0x13 }
    requires funct3 { (funct3_of word ≡ 1) ⊎ (funct3_of word ≡ 5) }
    ensures { result ≡ instruction_of word }
{
    let (rd, rs1, imm) = (rd(word), rs1(word), shift6_amount(word));
    match (funct3(word), word / 0x400_0000) {
        (1, 0) => Some(Instr::Slli { rd, rs1, imm }),
        (5, 0) => Some(Instr::Srli { rd, rs1, imm }),
        (5, 0x10) => Some(Instr::Srai { rd, rs1, imm }),
        _ => None,
    }
}

fn operation(word: u32) -> Option<Instr>
    requires { opcode_of word ≡ 0x33 }
    ensures { result ≡ instruction_of word }
{
    let (rd, rs1, rs2) = (rd(word), rs1(word), rs2(word));
    match (funct3(word), funct7(word)) {
        (0, 0) => Some(Instr::Add { rd, rs1, rs2 }),
        (0, 0x20) => Some(Instr::Sub { rd, rs1, rs2 }),
        (1, 0) => Some(Instr::Sll { rd, rs1, rs2 }),
        (2, 0) => Some(Instr::Slt { rd, rs1, rs2 }),
        (3, 0) => Some(Instr::Sltu { rd, rs1, rs2 }),
        (4, 0) => Some(Instr::Xor { rd, rs1, rs2 }),
        (5, 0) => Some(Instr::Srl { rd, rs1, rs2 }),
        (5, 0x20) => Some(Instr::Sra { rd, rs1, rs2 }),
        (6, 0) => Some(Instr::Or { rd, rs1, rs2 }),
        (7, 0) => Some(Instr::And { rd, rs1, rs2 }),
        (0, 1) => Some(Instr::Mul { rd, rs1, rs2 }),
        (1, 1) => Some(Instr::Mulh { rd, rs1, rs2 }),
        (2, 1) => Some(Instr::Mulhsu { rd, rs1, rs2 }),
        (3, 1) => Some(Instr::Mulhu { rd, rs1, rs2 }),
        (4, 1) => Some(Instr::Div { rd, rs1, rs2 }),
        (5, 1) => Some(Instr::Divu { rd, rs1, rs2 }),
        (6, 1) => Some(Instr::Rem { rd, rs1, rs2 }),
        (7, 1) => Some(Instr::Remu { rd, rs1, rs2 }),
        _ => None,
    }
}

fn narrow_with_immediate(word: u32) -> Option<Instr>
    requires { opcode_of word ≡ 0x1b }
    ensures { result ≡ instruction_of word }
{
    let (rd, rs1) = (rd(word), rs1(word));
    match (funct3(word), funct7(word)) {
        (0, _) => Some(Instr::Addiw {
            rd,
            rs1,
            imm: immediate(word),
        }),
        (1, 0) => Some(Instr::Slliw {
            rd,
            rs1,
            imm: shift5_amount(word),
        }),
        (5, 0) => Some(Instr::Srliw {
            rd,
            rs1,
            imm: shift5_amount(word),
        }),
        (5, 0x20) => Some(Instr::Sraiw {
            rd,
            rs1,
            imm: shift5_amount(word),
        }),
        _ => None,
    }
}

fn narrow_operation(word: u32) -> Option<Instr>
    requires { opcode_of word ≡ 0x3b }
    ensures { result ≡ instruction_of word }
{
    let (rd, rs1, rs2) = (rd(word), rs1(word), rs2(word));
    match (funct3(word), funct7(word)) {
        (0, 0) => Some(Instr::Addw { rd, rs1, rs2 }),
        (0, 0x20) => Some(Instr::Subw { rd, rs1, rs2 }),
        (1, 0) => Some(Instr::Sllw { rd, rs1, rs2 }),
        (5, 0) => Some(Instr::Srlw { rd, rs1, rs2 }),
        (5, 0x20) => Some(Instr::Sraw { rd, rs1, rs2 }),
        (0, 1) => Some(Instr::Mulw { rd, rs1, rs2 }),
        (4, 1) => Some(Instr::Divw { rd, rs1, rs2 }),
        (5, 1) => Some(Instr::Divuw { rd, rs1, rs2 }),
        (6, 1) => Some(Instr::Remw { rd, rs1, rs2 }),
        (7, 1) => Some(Instr::Remuw { rd, rs1, rs2 }),
        _ => None,
    }
}

fn fence(word: u32) -> Option<Instr>
    requires { opcode_of word ≡ 0x0f }
    ensures { result ≡ instruction_of word }
{
    let (rd, rs1, imm) = (rd(word), rs1(word), immediate(word));
    match funct3(word) {
        0 => Some(Instr::Fence { rd, rs1, imm }),
        _ => None,
    }
}

fn system(word: u32) -> Option<Instr>
    requires { opcode_of word ≡ 0x73 }
    ensures { result ≡ instruction_of word }
{
    match word {
        0x73 => Some(Instr::Ecall),
        0x10_0073 => Some(Instr::Ebreak),
        _ => None,
    }
}

fn funct3(word: u32) -> u32
    ensures { result ≡ funct3_of word }
{
    word / 0x1000 % 8
}

fn funct7(word: u32) -> u32
    ensures { result ≡ funct7_of word }
{
    word / 0x200_0000
}

fn rd(word: u32) -> u8
    ensures { result ≡ rd_of word }
{
    (word / 0x80 % 32) as u8
}

fn rs1(word: u32) -> u8
    ensures { result ≡ rs1_of word }
{
    (word / 0x8000 % 32) as u8
}

fn rs2(word: u32) -> u8
    ensures { result ≡ rs2_of word }
{
    (word / 0x10_0000 % 32) as u8
}

fn immediate(word: u32) -> i32
    ensures { result ≡ i_imm word }
{
    with_sign(word / 0x10_0000, 0x800)
}

fn shift6_amount(word: u32) -> i32
    ensures { result ≡ shift6_imm word }
{
    (word / 0x10_0000 % 64).cast_signed()
}

fn shift5_amount(word: u32) -> i32
    ensures { result ≡ shift5_imm word }
{
    (word / 0x10_0000 % 32).cast_signed()
}

fn store_offset(word: u32) -> i32
    ensures { result ≡ s_imm word }
{
    with_sign(word / 0x80 % 32 + 32 * (word / 0x200_0000), 0x800)
}

fn branch_distance(word: u32) -> i32
    ensures { result ≡ b_imm word }
{
    let bits = 0x800 * (word / 0x80 % 2)
        + 2 * (word / 0x100 % 16)
        + 32 * (word / 0x200_0000 % 64)
        + 0x1000 * (word / 0x8000_0000);
    with_sign(bits, 0x1000)
}

fn upper(word: u32) -> i32
    ensures { result ≡ u_imm word }
{
    with_sign(word / 0x1000, 0x8_0000)
}

fn jump_distance(word: u32) -> i32
    ensures { result ≡ j_imm word }
{
    let bits = 0x1000 * (word / 0x1000 % 256)
        + 0x800 * (word / 0x10_0000 % 2)
        + 2 * (word / 0x20_0000 % 1024)
        + 0x10_0000 * (word / 0x8000_0000);
    with_sign(bits, 0x10_0000)
}

/// A number below `2 * half` as a signed number.
fn with_sign(number: u32, half: u32) -> i32
    requires half { half < 2 ^ 30 }
    requires number { number < 2 * half }
    ensures { result ≡ signed half number }
{
    if number < half {
        number.cast_signed()
    } else {
        number.cast_signed() - (2 * half).cast_signed()
    }
}
