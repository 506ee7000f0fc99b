//! Words of code as they are kept: an operation and its operands, with the slots from which registers are read.
ghost use Rattle.std.specs.Prelude.{◌≡◌, ◌<◌};
ghost use Rattle.rv_form.specs.Instruction.{IsValid};
ghost use Rattle.rv_form.specs.Machine.{Found};
ghost use Rattle.rv_words.specs.Packed.{IsReady, IsSource, fetched_by, fetched_of, number_of};

use rv_form::Instr;

/// The slot that has 0: register 0 is read from it, whatever was written to its own.
pub const ZERO: u8 = 32;

/// The operation of a word: that of the instruction of this name.
#[derive(Clone, Copy)]
pub enum Op {
    Lui,
    Auipc,
    Jal,
    Jalr,
    Beq,
    Bne,
    Blt,
    Bge,
    Bltu,
    Bgeu,
    Lb,
    Lh,
    Lw,
    Ld,
    Lbu,
    Lhu,
    Lwu,
    Sb,
    Sh,
    Sw,
    Sd,
    Addi,
    Slti,
    Sltiu,
    Xori,
    Ori,
    Andi,
    Slli,
    Srli,
    Srai,
    Add,
    Sub,
    Sll,
    Slt,
    Sltu,
    Xor,
    Srl,
    Sra,
    Or,
    And,
    Mul,
    Mulh,
    Mulhsu,
    Mulhu,
    Div,
    Divu,
    Rem,
    Remu,
    Addiw,
    Slliw,
    Srliw,
    Sraiw,
    Addw,
    Subw,
    Sllw,
    Srlw,
    Sraw,
    Mulw,
    Divw,
    Divuw,
    Remw,
    Remuw,
    Fence,
    Ecall,
    Ebreak,
    /// No instruction has the word.
    NoWord,
}

/// A word of code with its operation and operands; `rs1` and `rs2` are slots (`source`). An operand that the
/// operation does not have is not looked at.
#[derive(Clone, Copy)]
pub struct Decoded {
    pub op: Op,
    pub rd: u8,
    pub rs1: u8,
    pub rs2: u8,
    pub imm: i32,
}

/// The slot from which a register is read.
fn source(r: u8) -> u8
    requires { r < 32 }
    ensures number { number_of result ≡ r }
    ensures slot { IsSource result }
{
    if r == 0 { ZERO } else { r }
}

/// A word of this operation and these operands.
pub fn pack(op: Op, rd: u8, rs1: u8, rs2: u8, imm: i32) -> Decoded
    requires { (rd < 32) × (rs1 < 32) × (rs2 < 32) }
    ensures fetched { fetched_of result ≡ fetched_by op rd rs1 rs2 imm }
    ensures ready { IsReady result }
{
    Decoded {
        op,
        rd,
        rs1: source(rs1),
        rs2: source(rs2),
        imm,
    }
}

/// The word of an instruction.
pub fn word_of(instr: Instr) -> Decoded
    requires { IsValid instr }
    ensures fetched { fetched_of result ≡ Found instr }
    ensures ready { IsReady result }
{
    match instr {
        Instr::Lui { rd, imm } => pack(Op::Lui, rd, 0, 0, imm),
        Instr::Auipc { rd, imm } => pack(Op::Auipc, rd, 0, 0, imm),
        Instr::Jal { rd, imm } => pack(Op::Jal, rd, 0, 0, imm),
        Instr::Jalr { rd, rs1, imm } => pack(Op::Jalr, rd, rs1, 0, imm),
        Instr::Beq { rs1, rs2, imm } => pack(Op::Beq, 0, rs1, rs2, imm),
        Instr::Bne { rs1, rs2, imm } => pack(Op::Bne, 0, rs1, rs2, imm),
        Instr::Blt { rs1, rs2, imm } => pack(Op::Blt, 0, rs1, rs2, imm),
        Instr::Bge { rs1, rs2, imm } => pack(Op::Bge, 0, rs1, rs2, imm),
        Instr::Bltu { rs1, rs2, imm } => pack(Op::Bltu, 0, rs1, rs2, imm),
        Instr::Bgeu { rs1, rs2, imm } => pack(Op::Bgeu, 0, rs1, rs2, imm),
        Instr::Lb { rd, rs1, imm } => pack(Op::Lb, rd, rs1, 0, imm),
        Instr::Lh { rd, rs1, imm } => pack(Op::Lh, rd, rs1, 0, imm),
        Instr::Lw { rd, rs1, imm } => pack(Op::Lw, rd, rs1, 0, imm),
        Instr::Ld { rd, rs1, imm } => pack(Op::Ld, rd, rs1, 0, imm),
        Instr::Lbu { rd, rs1, imm } => pack(Op::Lbu, rd, rs1, 0, imm),
        Instr::Lhu { rd, rs1, imm } => pack(Op::Lhu, rd, rs1, 0, imm),
        Instr::Lwu { rd, rs1, imm } => pack(Op::Lwu, rd, rs1, 0, imm),
        Instr::Sb { rs1, rs2, imm } => pack(Op::Sb, 0, rs1, rs2, imm),
        Instr::Sh { rs1, rs2, imm } => pack(Op::Sh, 0, rs1, rs2, imm),
        Instr::Sw { rs1, rs2, imm } => pack(Op::Sw, 0, rs1, rs2, imm),
        Instr::Sd { rs1, rs2, imm } => pack(Op::Sd, 0, rs1, rs2, imm),
        Instr::Addi { rd, rs1, imm } => pack(Op::Addi, rd, rs1, 0, imm),
        Instr::Slti { rd, rs1, imm } => pack(Op::Slti, rd, rs1, 0, imm),
        Instr::Sltiu { rd, rs1, imm } => pack(Op::Sltiu, rd, rs1, 0, imm),
        Instr::Xori { rd, rs1, imm } => pack(Op::Xori, rd, rs1, 0, imm),
        Instr::Ori { rd, rs1, imm } => pack(Op::Ori, rd, rs1, 0, imm),
        Instr::Andi { rd, rs1, imm } => pack(Op::Andi, rd, rs1, 0, imm),
        Instr::Slli { rd, rs1, imm } => pack(Op::Slli, rd, rs1, 0, imm),
        Instr::Srli { rd, rs1, imm } => pack(Op::Srli, rd, rs1, 0, imm),
        Instr::Srai { rd, rs1, imm } => pack(Op::Srai, rd, rs1, 0, imm),
        Instr::Add { rd, rs1, rs2 } => pack(Op::Add, rd, rs1, rs2, 0),
        Instr::Sub { rd, rs1, rs2 } => pack(Op::Sub, rd, rs1, rs2, 0),
        Instr::Sll { rd, rs1, rs2 } => pack(Op::Sll, rd, rs1, rs2, 0),
        Instr::Slt { rd, rs1, rs2 } => pack(Op::Slt, rd, rs1, rs2, 0),
        Instr::Sltu { rd, rs1, rs2 } => pack(Op::Sltu, rd, rs1, rs2, 0),
        Instr::Xor { rd, rs1, rs2 } => pack(Op::Xor, rd, rs1, rs2, 0),
        Instr::Srl { rd, rs1, rs2 } => pack(Op::Srl, rd, rs1, rs2, 0),
        Instr::Sra { rd, rs1, rs2 } => pack(Op::Sra, rd, rs1, rs2, 0),
        Instr::Or { rd, rs1, rs2 } => pack(Op::Or, rd, rs1, rs2, 0),
        Instr::And { rd, rs1, rs2 } => pack(Op::And, rd, rs1, rs2, 0),
        Instr::Mul { rd, rs1, rs2 } => pack(Op::Mul, rd, rs1, rs2, 0),
        Instr::Mulh { rd, rs1, rs2 } => pack(Op::Mulh, rd, rs1, rs2, 0),
        Instr::Mulhsu { rd, rs1, rs2 } => pack(Op::Mulhsu, rd, rs1, rs2, 0),
        Instr::Mulhu { rd, rs1, rs2 } => pack(Op::Mulhu, rd, rs1, rs2, 0),
        Instr::Div { rd, rs1, rs2 } => pack(Op::Div, rd, rs1, rs2, 0),
        Instr::Divu { rd, rs1, rs2 } => pack(Op::Divu, rd, rs1, rs2, 0),
        Instr::Rem { rd, rs1, rs2 } => pack(Op::Rem, rd, rs1, rs2, 0),
        Instr::Remu { rd, rs1, rs2 } => pack(Op::Remu, rd, rs1, rs2, 0),
        Instr::Addiw { rd, rs1, imm } => pack(Op::Addiw, rd, rs1, 0, imm),
        Instr::Slliw { rd, rs1, imm } => pack(Op::Slliw, rd, rs1, 0, imm),
        Instr::Srliw { rd, rs1, imm } => pack(Op::Srliw, rd, rs1, 0, imm),
        Instr::Sraiw { rd, rs1, imm } => pack(Op::Sraiw, rd, rs1, 0, imm),
        Instr::Addw { rd, rs1, rs2 } => pack(Op::Addw, rd, rs1, rs2, 0),
        Instr::Subw { rd, rs1, rs2 } => pack(Op::Subw, rd, rs1, rs2, 0),
        Instr::Sllw { rd, rs1, rs2 } => pack(Op::Sllw, rd, rs1, rs2, 0),
        Instr::Srlw { rd, rs1, rs2 } => pack(Op::Srlw, rd, rs1, rs2, 0),
        Instr::Sraw { rd, rs1, rs2 } => pack(Op::Sraw, rd, rs1, rs2, 0),
        Instr::Mulw { rd, rs1, rs2 } => pack(Op::Mulw, rd, rs1, rs2, 0),
        Instr::Divw { rd, rs1, rs2 } => pack(Op::Divw, rd, rs1, rs2, 0),
        Instr::Divuw { rd, rs1, rs2 } => pack(Op::Divuw, rd, rs1, rs2, 0),
        Instr::Remw { rd, rs1, rs2 } => pack(Op::Remw, rd, rs1, rs2, 0),
        Instr::Remuw { rd, rs1, rs2 } => pack(Op::Remuw, rd, rs1, rs2, 0),
        Instr::Fence { rd, rs1, imm } => pack(Op::Fence, rd, rs1, 0, imm),
        Instr::Ecall => pack(Op::Ecall, 0, 0, 0, 0),
        Instr::Ebreak => pack(Op::Ebreak, 0, 0, 0, 0),
    }
}
