ghost use Rattle.std.specs.Prelude.{◌≡◌, IfOk, Some};
ghost use Rattle.scheme_base.specs.Runs.{after};
ghost use Rattle.rv_form.specs.Machine.{machine_in};
ghost use Rattle.rv_emulator.specs.declared.next.End.{End as Ending};
ghost use Rattle.rv_emulator.specs.Held.{StartsAs, answer_in, run_of, settled, world_under};
ghost use Rattle.rv_emulator.specs.Loading.{IsLoadable};
ghost use Rattle.rv_emulator.specs.Plays.{Plays};

use crate::loading::{Code, lay, read_code};
use crate::memory::Memory;
use crate::next::{End, RunEnd, answer};
use crate::registers::Registers;
use crate::trap::go_on;
use rv_form::Image;
use stalin_outside::Console;
use std::alloc::{AllocError, Global};
use std::marker::Model;

/// A machine with an image in its memory, and how far it has come.
///
/// Contracts see its memory, its registers, the place of its next instruction, and how it has stopped;
/// `specs/Held` says which run that is.
#[derive(Drop)]
pub struct Machine {
    pc: u64,
    registers: Registers,
    memory: Memory,
    code: Code,
    end: Option<End>,
}

impl Model for Machine {
    ghost use Rattle.rv_emulator.specs.Held.{Held};
    ghost use Rattle.rv_emulator.specs.States.{IsCached};

    ghost Value = { Held };

    ghost view = { λ machine. record {
      regions = machine.memory.regions;
      bytes = machine.memory.bytes;
      registers = machine.registers.words;
      pc = machine.pc;
      end = machine.end;
    } };

    ghost invariant = { λ machine. IsCached machine.memory machine.code.base machine.code.words.items };
}

/// A machine at the start of an image.
pub fn load(alloc: Global, image: &Image) -> Result<Machine, AllocError>
    requires { IsLoadable image.now.segments }
    ensures { IfOk result (StartsAs image.now) }
{
    let memory = lay(alloc, image.segments.as_slice())?;
    let code = read_code(alloc, &memory, image.entry)?;
    Ok(Machine {
        pc: image.entry,
        registers: Registers::new(),
        memory,
        code,
        end: None,
    })
}

impl Machine {
    /// Does so many steps, or as many as there are, and tells what they come to.
    /// It takes no memory. A run after `Spent` goes on; after another answer each run answers the same.
    pub fn run<C: Console>(&mut self, steps: u64, console: &mut C) -> RunEnd
        ensures plays { Plays
            (λ env calls. settled (world_under self.old env)
            (after (machine_in (world_under self.old env)) steps (run_of self.old calls)))
            (run_of self.new)
            (C.told console.old) (C.told console.new) }
        ensures answer { result ≡ answer_in steps self.new.end }
        ensures regions { self.new.regions ≡ self.old.regions }
        ensures stopped { (end : Ending) → self.old.end ≡ Some end → (self.new ≡ self.old) × (console.new ≡ console.old) }
    {
        if let Some(end) = self.end {
            return answer(Some(end), steps);
        }
        let gone = go_on(
            steps,
            self.code.base,
            &self.code.words,
            self.pc,
            &mut self.registers,
            &mut self.memory,
            console,
        );
        self.pc = gone.pc;
        self.end = gone.end;
        answer(gone.end, steps)
    }
}
