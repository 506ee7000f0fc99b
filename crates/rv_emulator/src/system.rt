//! The system calls, which are the machine's only way to a console.
ghost use Rattle.std.specs.Prelude.{◌≡◌, ◌+◌, ◌<◌, ◌^◌, ℕ, true};
ghost use Rattle.scheme_base.specs.declared.env.Env.{Env};
ghost use Rattle.scheme_base.specs.Outside.{Calls};
ghost use Rattle.rv_form.specs.Numbers.{word as word_of};
ghost use Rattle.rv_form.specs.Machine.{answer_of, asked as asked_in, received, system as does_system, with_reg};
ghost use Rattle.rv_emulator.specs.Memory.{cells, flags_in, has_flag};
ghost use Rattle.stalin_outside.specs.Console.{IsRead};
ghost use Rattle.stalin_outside.specs.Transcript.{IsByte, read_event_of, write_event_of};
ghost use Rattle.rv_emulator.specs.Plays.{Plays};
ghost use Rattle.rv_emulator.specs.States.{Kept, ask_as, reads, regs_of, state_of, turned, world_with};

use crate::memory::Memory;
use crate::next::End;
use crate::region::WRITES;
use crate::registers::Registers;
use rv_words::Width;
use rv_words::operation::word;
use stalin_outside::{Console, In, Out};

const CHANNEL: u8 = 10;

const BUFFER: u8 = 11;

const LENGTH: u8 = 12;

const NUMBER: u8 = 17;

/// What a system call comes to.
#[derive(Clone, Copy, Debug, PartialEq, Eq)]
pub enum Ask {
    /// Nothing, of no length.
    Nothing,
    /// Nothing, on a channel that is not there.
    NoChannel,
    /// Nothing, at a place that may not be used so.
    NoPlace,
    Reads,
    Writes(u8),
    Sends(u8),
    Leaves(u8),
    Unknown,
}

/// Makes the system call of an instruction at `pc`, and goes on to the next one.
#[inline(never)]
pub fn system<C: Console>(
    pc: u64,
    registers: &mut Registers,
    memory: &mut Memory,
    console: &mut C,
) -> Result<u64, End>
    requires { pc < 2 ^ 47 }
    ensures plays { Plays
        (λ env calls. does_system (world_with memory.old.regions env)
        (asked_in (world_with memory.old.regions env) (state_of pc registers.old memory.old calls))
        (state_of pc registers.old memory.old calls))
        (turned result registers.new memory.new)
        (C.told console.old) (C.told console.new) }
    ensures kept { Kept memory.old memory.new }
{
    match asked(registers, memory) {
        Ask::Nothing => Ok(go_on(pc, 0, registers)),
        Ask::NoChannel => Ok(go_on(pc, word(-9), registers)),
        Ask::NoPlace => Ok(go_on(pc, word(-14), registers)),
        Ask::Reads => {
            let answer = read_byte(registers.read(BUFFER), memory, console);
            Ok(go_on(pc, answer_of_read(answer), registers))
        }
        Ask::Writes(byte) => {
            let answer = console.out(byte);
            Ok(go_on(pc, answer_of_write(answer), registers))
        }
        Ask::Sends(byte) => {
            let answer = console.err(byte);
            Ok(go_on(pc, answer_of_write(answer), registers))
        }
        Ask::Leaves(status) => Err(End::Exited { status }),
        Ask::Unknown => Err(End::Trapped { kind: 5, pc }),
    }
}

/// What the registers ask for.
pub fn asked(registers: &Registers, memory: &Memory) -> Ask
    ensures ask { (pc : ℕ) (env : Env) (calls : Calls) → asked_in (world_with memory.now.regions env) (state_of pc registers.now memory.now calls) ≡ ask_as result }
    ensures usable { result ≡ Ask.Reads → has_flag (flags_in memory.now.regions (reads registers.now 11)) 2 ≡ true }
{
    let number = registers.read(NUMBER);
    let channel = registers.read(CHANNEL);
    let length = registers.read(LENGTH);
    let buffer = registers.read(BUFFER);
    match number {
        63 | 64 if length == 0 => Ask::Nothing,
        63 if channel != 0 => Ask::NoChannel,
        63 if !may_write(memory, buffer) => Ask::NoPlace,
        63 => Ask::Reads,
        64 if channel != 1 && channel != 2 => Ask::NoChannel,
        64 => match memory.read(Width::Byte, buffer) {
            None => Ask::NoPlace,
            Some(byte) if channel == 1 => Ask::Writes(byte as u8),
            Some(byte) => Ask::Sends(byte as u8),
        },
        93 => Ask::Leaves((channel % 256) as u8),
        _ => Ask::Unknown,
    }
}

/// Whether the byte at an address may be written.
fn may_write(memory: &Memory, a: u64) -> bool
    ensures { result ≡ has_flag (flags_in memory.now.regions a) 2 }
{
    memory.may(WRITES, 1, a)
}

/// Puts an answer into its register, and tells the place of the next instruction.
fn go_on(pc: u64, answer: u64, registers: &mut Registers) -> u64
    requires { pc < 2 ^ 47 }
    ensures next { result ≡ pc + 4 }
    ensures registers { regs_of registers.new ≡ with_reg (regs_of registers.old) 10 answer }
{
    registers.put(CHANNEL, answer);
    pc + 4
}

/// Reads a byte of the input into memory.
fn read_byte<C: Console>(a: u64, memory: &mut Memory, console: &mut C) -> In
    requires { has_flag (flags_in memory.old.regions a) 2 ≡ true }
    ensures byte { IsByte result }
    ensures call { IsRead result (C.told console.old) (C.told console.new) }
    ensures memory { cells memory.new ≡ received (read_event_of result) a (cells memory.old) }
    ensures kept { Kept memory.old memory.new }
{
    let answer = console.input();
    if let In::Byte(byte) = answer {
        let _ = memory.store(Width::Byte, a, u64::from(byte));
    }
    answer
}

/// The machine's answer of a read.
fn answer_of_read(answer: In) -> u64
    ensures { result ≡ word_of (answer_of (read_event_of answer)) }
{
    match answer {
        In::Byte(_) => 1,
        In::End => 0,
        In::Failed => word(-5),
    }
}

/// The machine's answer of a write.
fn answer_of_write(answer: Out) -> u64
    ensures { (byte : ℕ) → result ≡ word_of (answer_of (write_event_of byte answer)) }
{
    match answer {
        Out::Took => 1,
        Out::Failed => word(-5),
    }
}
