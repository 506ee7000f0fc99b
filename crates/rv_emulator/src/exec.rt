//! What each instruction does.
ghost use Rattle.std.specs.Prelude.{◌≡◌, ◌+◌, ◌<◌, ◌^◌};
ghost use Rattle.scheme_base.specs.declared.env.Env.{Env};
ghost use Rattle.scheme_base.specs.Outside.{Calls};
ghost use Rattle.rv_form.specs.Numbers.{add as sum_of, word as word_of};
ghost use Rattle.rv_form.specs.Machine.{act_at, with_reg};
ghost use Rattle.rv_emulator.specs.Memory.{all_flagged, cells, loaded_by};
ghost use Rattle.rv_words.specs.Widths.{bytes_of};
ghost use Rattle.rv_words.specs.Packed.{IsReady, IsSource, fetched_of, number_of};
ghost use Rattle.rv_emulator.specs.States.{Kept, after_load, after_store, done, reads, regs_of, shape_of, state_of, with_loaded, with_stored, world_with};

use crate::memory::Memory;
use crate::next::{Next, Turn};
use crate::registers::Registers;
use rv_words::Width::{Byte, Double, Half, Word};
use rv_words::operation::{
    add, div, divu, divuw, divw, even, extended, flag, high_mixed, high_signed, high_unsigned,
    less, mul, narrow, rem, remu, remuw, remw, shift_left, shift_right, shift_signed, sllw, sraw,
    srlw, sub, upper, word,
};
use rv_words::{Decoded, Op, Width};

/// Does an instruction that stands at `pc`, all but a system call; `x` are the registers.
#[inline]
pub fn exec(code: Decoded, pc: u64, x: &mut Registers, memory: &mut Memory) -> Next
    requires ready { IsReady code }
    requires place { pc < 2 ^ 47 }
    ensures done { (env : Env) (calls : Calls) → act_at (world_with memory.old.regions env) (fetched_of code) (state_of pc x.old memory.old calls) ≡ done (world_with memory.old.regions env) pc result (state_of pc x.new memory.new calls) }
    ensures kept { Kept memory.old memory.new }
{
    let Decoded {
        op,
        rd,
        rs1,
        rs2,
        imm,
    } = code;
    match op {
        Op::Lui => put(upper(imm), rd, x),
        Op::Auipc => put(add(pc, upper(imm)), rd, x),
        Op::Jal => jump(add(pc, word(imm)), rd, pc, x),
        Op::Jalr => jump(even(address(rs1, imm, x)), rd, pc, x),
        Op::Beq => branch(x.read(rs1) == x.read(rs2), imm, pc),
        Op::Bne => branch(x.read(rs1) != x.read(rs2), imm, pc),
        Op::Blt => branch(less(x.read(rs1), x.read(rs2)), imm, pc),
        Op::Bge => branch(!less(x.read(rs1), x.read(rs2)), imm, pc),
        Op::Bltu => branch(x.read(rs1) < x.read(rs2), imm, pc),
        Op::Bgeu => branch(x.read(rs1) >= x.read(rs2), imm, pc),
        Op::Lb => load_into(Byte, true, rd, rs1, imm, x, memory),
        Op::Lh => load_into(Half, true, rd, rs1, imm, x, memory),
        Op::Lw => load_into(Word, true, rd, rs1, imm, x, memory),
        Op::Ld => load_into(Double, false, rd, rs1, imm, x, memory),
        Op::Lbu => load_into(Byte, false, rd, rs1, imm, x, memory),
        Op::Lhu => load_into(Half, false, rd, rs1, imm, x, memory),
        Op::Lwu => load_into(Word, false, rd, rs1, imm, x, memory),
        Op::Sb => store_at(Byte, rs1, rs2, imm, x, memory),
        Op::Sh => store_at(Half, rs1, rs2, imm, x, memory),
        Op::Sw => store_at(Word, rs1, rs2, imm, x, memory),
        Op::Sd => store_at(Double, rs1, rs2, imm, x, memory),
        Op::Addi => put(add(x.read(rs1), word(imm)), rd, x),
        Op::Slti => put(flag(less(x.read(rs1), word(imm))), rd, x),
        Op::Sltiu => put(flag(x.read(rs1) < word(imm)), rd, x),
        Op::Xori => put(x.read(rs1) ^ word(imm), rd, x),
        Op::Ori => put(x.read(rs1) | word(imm), rd, x),
        Op::Andi => put(x.read(rs1) & word(imm), rd, x),
        Op::Slli => put(shift_left(x.read(rs1), word(imm)), rd, x),
        Op::Srli => put(shift_right(x.read(rs1), word(imm)), rd, x),
        Op::Srai => put(shift_signed(x.read(rs1), word(imm)), rd, x),
        Op::Add => put(add(x.read(rs1), x.read(rs2)), rd, x),
        Op::Sub => put(sub(x.read(rs1), x.read(rs2)), rd, x),
        Op::Sll => put(shift_left(x.read(rs1), x.read(rs2)), rd, x),
        Op::Slt => put(flag(less(x.read(rs1), x.read(rs2))), rd, x),
        Op::Sltu => put(flag(x.read(rs1) < x.read(rs2)), rd, x),
        Op::Xor => put(x.read(rs1) ^ x.read(rs2), rd, x),
        Op::Srl => put(shift_right(x.read(rs1), x.read(rs2)), rd, x),
        Op::Sra => put(shift_signed(x.read(rs1), x.read(rs2)), rd, x),
        Op::Or => put(x.read(rs1) | x.read(rs2), rd, x),
        Op::And => put(x.read(rs1) & x.read(rs2), rd, x),
        Op::Mul => put(mul(x.read(rs1), x.read(rs2)), rd, x),
        Op::Mulh => put(high_signed(x.read(rs1), x.read(rs2)), rd, x),
        Op::Mulhsu => put(high_mixed(x.read(rs1), x.read(rs2)), rd, x),
        Op::Mulhu => put(high_unsigned(x.read(rs1), x.read(rs2)), rd, x),
        Op::Div => put(div(x.read(rs1), x.read(rs2)), rd, x),
        Op::Divu => put(divu(x.read(rs1), x.read(rs2)), rd, x),
        Op::Rem => put(rem(x.read(rs1), x.read(rs2)), rd, x),
        Op::Remu => put(remu(x.read(rs1), x.read(rs2)), rd, x),
        Op::Addiw => put(narrow(add(x.read(rs1), word(imm))), rd, x),
        Op::Slliw => put(sllw(x.read(rs1), word(imm)), rd, x),
        Op::Srliw => put(srlw(x.read(rs1), word(imm)), rd, x),
        Op::Sraiw => put(sraw(x.read(rs1), word(imm)), rd, x),
        Op::Addw => put(narrow(add(x.read(rs1), x.read(rs2))), rd, x),
        Op::Subw => put(narrow(sub(x.read(rs1), x.read(rs2))), rd, x),
        Op::Sllw => put(sllw(x.read(rs1), x.read(rs2)), rd, x),
        Op::Srlw => put(srlw(x.read(rs1), x.read(rs2)), rd, x),
        Op::Sraw => put(sraw(x.read(rs1), x.read(rs2)), rd, x),
        Op::Mulw => put(narrow(mul(x.read(rs1), x.read(rs2))), rd, x),
        Op::Divw => put(divw(x.read(rs1), x.read(rs2)), rd, x),
        Op::Divuw => put(divuw(x.read(rs1), x.read(rs2)), rd, x),
        Op::Remw => put(remw(x.read(rs1), x.read(rs2)), rd, x),
        Op::Remuw => put(remuw(x.read(rs1), x.read(rs2)), rd, x),
        Op::Fence => Next::Go(Turn::On),
        Op::Ecall => Next::Call,
        Op::Ebreak => Next::Trap(6),
        Op::NoWord => Next::Trap(1),
    }
}

/// The address that a register and an immediate give.
#[inline(always)]
fn address(rs1: u8, imm: i32, x: &Registers) -> u64
    requires { IsSource rs1 }
    ensures { result ≡ sum_of (reads x.now (number_of rs1)) (word_of imm) }
{
    add(x.read(rs1), word(imm))
}

/// Puts a value into a register, and goes on to the next instruction.
#[inline(always)]
fn put(value: u64, rd: u8, x: &mut Registers) -> Next
    requires { rd < 32 }
    ensures next { result ≡ Next.Go Turn.On }
    ensures registers { regs_of x.new ≡ with_reg (regs_of x.old) rd value }
{
    x.put(rd, value);
    Next::Go(Turn::On)
}

/// Goes to a place, with that of the next instruction in a register.
#[inline(always)]
fn jump(to: u64, rd: u8, pc: u64, x: &mut Registers) -> Next
    requires place { pc < 2 ^ 47 }
    requires register { rd < 32 }
    ensures next { result ≡ Next.Go (Turn.Jump to) }
    ensures registers { regs_of x.new ≡ with_reg (regs_of x.old) rd (pc + 4) }
{
    x.put(rd, pc + 4);
    Next::Go(Turn::Jump(to))
}

/// Goes as far as a branch says where it is taken, and else to the next instruction.
#[inline(always)]
fn branch(taken: bool, imm: i32, pc: u64) -> Next
    ensures { result ≡ Next.Go (Turn.Branch taken (sum_of pc (word_of imm))) }
{
    Next::Go(Turn::Branch {
        taken,
        to: add(pc, word(imm)),
    })
}

/// Loads a number into a register, as a signed one or as it is.
#[inline(always)]
fn load_into(
    width: Width,
    signed: bool,
    rd: u8,
    rs1: u8,
    imm: i32,
    x: &mut Registers,
    memory: &Memory,
) -> Next
    requires { (rd < 32) × IsSource rs1 }
    ensures next { result ≡ after_load (loaded_by memory.now.regions memory.now.bytes 4 (bytes_of width) (sum_of (reads x.old (number_of rs1)) (word_of imm))) }
    ensures registers { regs_of x.new ≡ with_loaded (shape_of signed width) rd
        (loaded_by memory.now.regions memory.now.bytes 4 (bytes_of width) (sum_of (reads x.old (number_of rs1)) (word_of imm))) (regs_of x.old) }
{
    match memory.read(width, address(rs1, imm, x)) {
        Some(n) if signed => put(extended(width.half(), n), rd, x),
        Some(n) => put(n, rd, x),
        None => Next::Trap(3),
    }
}

/// Stores the lowest bytes of a register.
#[inline(always)]
fn store_at(width: Width, rs1: u8, rs2: u8, imm: i32, x: &Registers, memory: &mut Memory) -> Next
    requires { IsSource rs1 × IsSource rs2 }
    ensures next { result ≡ after_store (all_flagged memory.old.regions 2 (bytes_of width) (sum_of (reads x.now (number_of rs1)) (word_of imm))) }
    ensures stored { cells memory.new ≡ with_stored (all_flagged memory.old.regions 2 (bytes_of width) (sum_of (reads x.now (number_of rs1)) (word_of imm)))
        (bytes_of width) (sum_of (reads x.now (number_of rs1)) (word_of imm)) (reads x.now (number_of rs2)) (cells memory.old) }
    ensures kept { Kept memory.old memory.new }
{
    if memory.store(width, address(rs1, imm, x), x.read(rs2)) {
        Next::Go(Turn::On)
    } else {
        Next::Trap(4)
    }
}
