//! Whether the next step is none: what a machine that has used up its steps looks at.
ghost use Rattle.std.specs.Prelude.{◌≡◌, ◌<◌, ◌^◌, ℕ, true, Some, None, if◌then◌else◌};
ghost use Rattle.scheme_base.specs.declared.env.Env.{Env};
ghost use Rattle.scheme_base.specs.Outside.{Calls};
ghost use Rattle.rv_form.specs.Numbers.{add as sum_of, word as word_of};
ghost use Rattle.rv_form.specs.Machine.{Running, act, act_at, machine_in, step as step_in};
ghost use Rattle.rv_emulator.specs.Memory.{all_flagged};
ghost use Rattle.rv_words.specs.Widths.{bytes_of};
ghost use Rattle.scheme_base.specs.Runs.{after};
ghost use Rattle.rv_emulator.specs.Held.{run_in, settled};
ghost use Rattle.rv_words.specs.Packed.{IsReady, IsSource, fetched_of, number_of};
ghost use Rattle.rv_form.specs.declared.instr.Instr.TheVariants as instr;
ghost use Rattle.rv_emulator.specs.Plays.{Plays};
ghost use Rattle.rv_emulator.specs.States.{IsCached, reads, state_of, trap_asked, trap_of, world_with};

use crate::memory::Memory;
use crate::next::End;
use crate::region::{READS, WRITES};
use crate::registers::Registers;
use crate::step::do_steps;
use crate::system::{Ask, asked};
use rv_words::operation::{add, word};
use rv_words::{Decoded, Op, Width};
use stalin_outside::Console;

/// How far a machine has come: the place of its next instruction, and how it has stopped.
#[derive(Clone, Copy, Debug, PartialEq, Eq)]
pub struct Gone {
    pub pc: u64,
    pub end: Option<End>,
}

/// Does so many steps from `pc` on, and stops also where the next one would be a trap.
pub fn go_on<C: Console>(
    steps: u64,
    base: u64,
    words: &[Decoded],
    pc: u64,
    registers: &mut Registers,
    memory: &mut Memory,
    console: &mut C,
) -> Gone
    requires { IsCached memory.old base words.now }
    ensures plays { Plays
        (λ env calls. settled (world_with memory.old.regions env)
        (after (machine_in (world_with memory.old.regions env)) steps
        (Running (state_of pc registers.old memory.old calls))))
        (λ calls. run_in result.end (state_of result.pc registers.new memory.new calls))
        (C.told console.old) (C.told console.new) }
    ensures regions { memory.new.regions ≡ memory.old.regions }
    ensures cached { IsCached memory.new base words.now }
{
    match do_steps(steps, base, words, pc, registers, memory, console) {
        Err(end) => Gone { pc, end: Some(end) },
        Ok(to) => match trap_at(to, registers, memory) {
            None => Gone { pc: to, end: None },
            Some(kind) => Gone {
                pc: to,
                end: Some(End::Trapped { kind, pc: to }),
            },
        },
    }
}

/// The kind of trap that stands at `pc`, if any.
fn trap_at(pc: u64, registers: &Registers, memory: &Memory) -> Option<u8>
    ensures { (env : Env) (calls : Calls) → trap_of (step_in (world_with memory.now.regions env) (Running (state_of pc registers.now memory.now calls))) ≡ result }
{
    match memory.fetch(pc) {
        Some(word) => word_trap(word, registers, memory),
        None => Some(2),
    }
}

/// The kind of trap that a word of code comes to, if any.
fn word_trap(code: Decoded, registers: &Registers, memory: &Memory) -> Option<u8>
    requires { IsReady code }
    ensures { (pc : ℕ) (env : Env) (calls : Calls) → trap_of (act_at (world_with memory.now.regions env) (fetched_of code) (state_of pc registers.now memory.now calls)) ≡ result }
{
    match code.op {
        Op::Lb | Op::Lbu => access_trap(READS, 3, Width::Byte, code, registers, memory),
        Op::Lh | Op::Lhu => access_trap(READS, 3, Width::Half, code, registers, memory),
        Op::Lw | Op::Lwu => access_trap(READS, 3, Width::Word, code, registers, memory),
        Op::Ld => access_trap(READS, 3, Width::Double, code, registers, memory),
        Op::Sb => access_trap(WRITES, 4, Width::Byte, code, registers, memory),
        Op::Sh => access_trap(WRITES, 4, Width::Half, code, registers, memory),
        Op::Sw => access_trap(WRITES, 4, Width::Word, code, registers, memory),
        Op::Sd => access_trap(WRITES, 4, Width::Double, code, registers, memory),
        Op::Ecall => call_trap(registers, memory),
        Op::Ebreak => Some(6),
        Op::NoWord => Some(1),
        _ => None,
    }
}

/// The trap of a load or a store at the address that a register and an immediate give: that of this kind, where not
/// each byte has the flag.
fn access_trap(
    flag: u32,
    kind: u8,
    width: Width,
    code: Decoded,
    registers: &Registers,
    memory: &Memory,
) -> Option<u8>
    requires flag { 0 < flag }
    requires register { IsSource code.rs1 }
    ensures { result ≡ if all_flagged memory.now.regions flag (bytes_of width) (sum_of (reads registers.now (number_of code.rs1)) (word_of code.imm)) then None else Some kind }
{
    if memory.may(
        flag,
        width.count(),
        add(registers.read(code.rs1), word(code.imm)),
    ) {
        None
    } else {
        Some(kind)
    }
}

/// The trap of a system call.
fn call_trap(registers: &Registers, memory: &Memory) -> Option<u8>
    ensures { (pc : ℕ) (env : Env) (calls : Calls) → trap_of (act (world_with memory.now.regions env) instr.Ecall (state_of pc registers.now memory.now calls)) ≡ result }
{
    ask_trap(asked(registers, memory))
}

fn ask_trap(ask: Ask) -> Option<u8>
    ensures { result ≡ trap_asked ask }
{
    match ask {
        Ask::Unknown => Some(5),
        _ => None,
    }
}
