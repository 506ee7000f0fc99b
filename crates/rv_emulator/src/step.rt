//! One step of the machine, and many.
ghost use Rattle.std.specs.Prelude.{◌≡◌, ◌+◌, ◌-◌, ◌<◌, ◌≤◌, ◌^◌, IfOk, length};
ghost use Rattle.scheme_base.specs.Runs.{after};
ghost use Rattle.rv_form.specs.Machine.{Running, machine_in, step as step_in};
ghost use Rattle.rv_emulator.specs.Plays.{Plays};
ghost use Rattle.rv_emulator.specs.States.{IsCached, IsNumbered, Kept, LieLow, StandsAt, left_in, place_after, place_in, spot_in, state_of, turned, world_with};

use crate::exec::exec;
use crate::memory::Memory;
use crate::next::{End, Next, Spot, Turn, Went};
use crate::registers::Registers;
use crate::system::system;
use rv_words::Decoded;
use rv_words::operation::sub;
use stalin_outside::Console;

/// Does so many steps from `pc` on, and tells the place of the next instruction, or how the run has ended.
pub fn do_steps<C: Console>(
    count: u64,
    base: u64,
    words: &[Decoded],
    pc: u64,
    registers: &mut Registers,
    memory: &mut Memory,
    console: &mut C,
) -> Result<u64, End>
    requires { IsCached memory.old base words.now }
    ensures plays { Plays
        (λ env calls. after (machine_in (world_with memory.old.regions env)) count
        (Running (state_of pc registers.old memory.old calls)))
        (turned result registers.new memory.new)
        (C.told console.old) (C.told console.new) }
    ensures cached { IsCached memory.new base words.now }
    ensures regions { memory.new.regions ≡ memory.old.regions }
{
    let mut pc = pc;
    let mut left = count;
    while left > 0 {
        match steps_at(pc, left, base, words, registers, memory, console) {
            Ok(went) => {
                pc = went.pc;
                left = went.left;
            }
            Err(end) => return Err(end),
        }
    }
    Ok(pc)
}

/// Does at least one step from `pc` on: those of words that were read once, or that of a word which is read now.
fn steps_at<C: Console>(
    pc: u64,
    count: u64,
    base: u64,
    words: &[Decoded],
    registers: &mut Registers,
    memory: &mut Memory,
    console: &mut C,
) -> Result<Went, End>
    requires some { 0 < count }
    requires cached { IsCached memory.old base words.now }
    ensures plays { Plays
        (λ env calls. after (machine_in (world_with memory.old.regions env)) (count - left_in result)
        (Running (state_of pc registers.old memory.old calls)))
        (turned (place_in result) registers.new memory.new)
        (C.told console.old) (C.told console.new) }
    ensures less { IfOk result (λ went. went.left < count) }
    ensures cached { IsCached memory.new base words.now }
    ensures regions { memory.new.regions ≡ memory.old.regions }
{
    let spot = spot_of(pc, base, words);
    if spot.at < words.len() {
        return run_from(
            words[spot.at],
            spot,
            count,
            base,
            words,
            registers,
            memory,
            console,
        );
    }
    match memory.fetch(pc) {
        Some(word) => {
            let at = words.len();
            run_from(
                word,
                Spot { pc, at },
                count,
                base,
                words,
                registers,
                memory,
                console,
            )
        }
        None => Err(End::Trapped { kind: 2, pc }),
    }
}

/// Does the step of a word, and then those of words that were read once; so many at most.
#[inline(never)]
fn run_from<C: Console>(
    first: Decoded,
    spot: Spot,
    count: u64,
    base: u64,
    words: &[Decoded],
    registers: &mut Registers,
    memory: &mut Memory,
    console: &mut C,
) -> Result<Went, End>
    requires some { 0 < count }
    requires first { StandsAt memory.old spot.pc first }
    requires small { spot.at ≤ length words.now }
    requires numbered { IsNumbered base words.now spot }
    requires cached { IsCached memory.old base words.now }
    ensures plays { Plays
        (λ env calls. after (machine_in (world_with memory.old.regions env)) (count - left_in result)
        (Running (state_of spot.pc registers.old memory.old calls)))
        (turned (place_in result) registers.new memory.new)
        (C.told console.old) (C.told console.new) }
    ensures less { IfOk result (λ went. went.left < count) }
    ensures cached { IsCached memory.new base words.now }
    ensures regions { memory.new.regions ≡ memory.old.regions }
{
    let mut word = first;
    let mut spot = spot;
    for done in 0..count {
        match step(word, spot, base, words, registers, memory, console) {
            Ok(next) => spot = next,
            Err(end) => return Err(end),
        }
        if spot.at >= words.len() {
            return Ok(Went {
                pc: spot.pc,
                left: count - done - 1,
            });
        }
        word = words[spot.at];
    }
    Ok(Went {
        pc: spot.pc,
        left: 0,
    })
}

/// Where a run stands after an instruction.
#[inline(always)]
fn follow(turn: Turn, spot: Spot, base: u64, words: &[Decoded]) -> Spot
    requires small { spot.at ≤ length words.now }
    requires low { spot.pc < 2 ^ 47 }
    requires numbered { IsNumbered base words.now spot }
    requires words { LieLow base words.now }
    ensures place { result.pc ≡ place_after spot.pc turn }
    ensures numbered { IsNumbered base words.now result }
{
    match turn {
        Turn::On => behind(spot),
        Turn::Jump(to) => spot_of(to, base, words),
        Turn::Branch { taken, to } => {
            if taken {
                spot_of(to, base, words)
            } else {
                behind(spot)
            }
        }
    }
}

#[inline(always)]
fn behind(spot: Spot) -> Spot
    requires low { spot.pc < 2 ^ 47 }
    requires small { spot.at < 2 ^ 63 }
    ensures place { result.pc ≡ spot.pc + 4 }
    ensures number { result.at ≡ spot.at + 1 }
{
    Spot {
        pc: spot.pc + 4,
        at: spot.at + 1,
    }
}

#[inline(always)]
fn spot_of(pc: u64, base: u64, words: &[Decoded]) -> Spot
    requires { LieLow base words.now }
    ensures place { result.pc ≡ pc }
    ensures numbered { IsNumbered base words.now result }
{
    let offset = sub(pc, base);
    if offset % 4 == 0 {
        let at = (offset / 4) as usize;
        Spot { pc, at }
    } else {
        let at = words.len();
        Spot { pc, at }
    }
}

/// Does the step of a word, and tells where the run stands then.
#[inline(always)]
fn step<C: Console>(
    word: Decoded,
    spot: Spot,
    base: u64,
    words: &[Decoded],
    registers: &mut Registers,
    memory: &mut Memory,
    console: &mut C,
) -> Result<Spot, End>
    requires stands { StandsAt memory.old spot.pc word }
    requires small { spot.at ≤ length words.now }
    requires numbered { IsNumbered base words.now spot }
    requires low { LieLow base words.now }
    ensures plays { Plays
        (λ env calls. step_in (world_with memory.old.regions env)
        (Running (state_of spot.pc registers.old memory.old calls)))
        (turned (spot_in result) registers.new memory.new)
        (C.told console.old) (C.told console.new) }
    ensures numbered { IfOk result (IsNumbered base words.now) }
    ensures kept { Kept memory.old memory.new }
{
    match exec(word, spot.pc, registers, memory) {
        Next::Go(turn) => Ok(follow(turn, spot, base, words)),
        Next::Trap(kind) => Err(End::Trapped { kind, pc: spot.pc }),
        Next::Call => match system(spot.pc, registers, memory, console) {
            Ok(to) => Ok(spot_of(to, base, words)),
            Err(end) => Err(end),
        },
    }
}
