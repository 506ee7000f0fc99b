//! The table of commands: what each one takes.
ghost use Rattle.std.specs.Prelude.{◌≡◌, ◌≤◌, ◌<◌, ◌%◌, ◌^◌};
ghost use Rattle.std.specs.Option.{option_copied};
ghost use Rattle.stalin_top.specs.Command.{counts, default_of, given, is_in, is_operand, number_in, range_of, setting_of, shape_of, takes, value_of, verb_of, with_setting};
ghost use Rattle.stalin_top.specs.Given.{AreFit};

use itoa::Buffer;

/// A command's name.
#[derive(Clone, Copy, Debug, PartialEq, Eq)]
pub(crate) enum Verb {
    Compile,
    Run,
    Emulate,
    Facts,
    Make,
}

/// What an operand is.
#[derive(Clone, Copy, Debug, PartialEq, Eq)]
pub(crate) enum Operand {
    /// The name of a file.
    File,
    /// How many procedures are made.
    Count,
}

/// Which options a command takes.
#[derive(Clone, Copy, Debug, PartialEq, Eq)]
pub(crate) struct Options {
    pub workers: bool,
    pub heap: bool,
    pub steps: bool,
}

/// An option, whose value is a number.
#[derive(Clone, Copy, Debug, PartialEq, Eq)]
pub(crate) enum Setting {
    /// How many threads may work on a program.
    Workers,
    /// The bytes of an image's heap.
    Heap,
    /// How many instructions an emulated image may do.
    Steps,
}

/// The values of the options that are given.
#[derive(Clone, Copy, Debug, PartialEq, Eq)]
pub(crate) struct Settings {
    pub workers: Option<u64>,
    pub heap: Option<u64>,
    pub steps: Option<u64>,
}

/// The multiples of a number from `least` to `most`.
#[derive(Clone, Copy, Debug, PartialEq, Eq)]
pub(crate) struct Range {
    pub least: u64,
    pub most: u64,
    pub multiple: u64,
}

impl Verb {
    /// The command that a word names.
    pub fn named(word: &str) -> Option<Verb>
        ensures { result ≡ verb_of word.now }
    {
        match word {
            "compile" => Some(Verb::Compile),
            "run" => Some(Verb::Run),
            "emulate" => Some(Verb::Emulate),
            "facts" => Some(Verb::Facts),
            "make" => Some(Verb::Make),
            _ => None,
        }
    }

    /// The command's operands, in order.
    pub fn operands(self) -> &'static [Operand]
        ensures { result.now ≡ (shape_of self).operands }
    {
        match self {
            Verb::Compile => &[Operand::File, Operand::File],
            Verb::Run => &[Operand::File],
            Verb::Emulate => &[Operand::File],
            Verb::Facts => &[Operand::File],
            Verb::Make => &[Operand::Count],
        }
    }

    pub fn options(self) -> Options
        ensures { result ≡ (shape_of self).options }
    {
        match self {
            Verb::Compile => Options::of(true, true, false),
            Verb::Run => Options::of(true, true, true),
            Verb::Emulate => Options::of(false, false, true),
            Verb::Facts => Options::of(true, false, false),
            Verb::Make => Options::of(true, true, false),
        }
    }
}

impl Options {
    fn of(workers: bool, heap: bool, steps: bool) -> Options
        ensures { result ≡ record { workers = workers; heap = heap; steps = steps } }
    {
        Options {
            workers,
            heap,
            steps,
        }
    }

    pub fn takes(self, setting: Setting) -> bool
        ensures { result ≡ takes self setting }
    {
        match setting {
            Setting::Workers => self.workers,
            Setting::Heap => self.heap,
            Setting::Steps => self.steps,
        }
    }
}

impl Setting {
    /// The option that a word names.
    pub fn named(word: &str) -> Option<Setting>
        ensures { result ≡ setting_of word.now }
    {
        match word {
            "--workers" => Some(Setting::Workers),
            "--heap" => Some(Setting::Heap),
            "--steps" => Some(Setting::Steps),
            _ => None,
        }
    }

    /// The values that the option may have.
    pub fn range(self) -> Range
        ensures range { result ≡ range_of self }
        ensures some { 0 < result.multiple }
    {
        match self {
            Setting::Workers => Range {
                least: 1,
                most: 32,
                multiple: 1,
            },
            Setting::Heap => Range {
                least: 4096,
                most: 0x4000_0000,
                multiple: 16,
            },
            Setting::Steps => Range {
                least: 1,
                most: 1_000_000_000_000_000_000,
                multiple: 1,
            },
        }
    }
}

impl Settings {
    /// The option's value, where it is given.
    pub fn given(self, setting: Setting) -> Option<u64>
        ensures { result ≡ given self setting }
    {
        match setting {
            Setting::Workers => self.workers,
            Setting::Heap => self.heap,
            Setting::Steps => self.steps,
        }
    }

    pub fn with(self, setting: Setting, value: u64) -> Settings
        ensures { result ≡ with_setting setting value self }
    {
        match setting {
            Setting::Workers => Settings {
                workers: Some(value),
                ..self
            },
            Setting::Heap => Settings {
                heap: Some(value),
                ..self
            },
            Setting::Steps => Settings {
                steps: Some(value),
                ..self
            },
        }
    }

    /// How many threads may work on a program.
    pub fn workers(self) -> u32
        requires { AreFit self }
        ensures value { result ≡ value_of self Setting.Workers }
        ensures some { 1 ≤ result }
        ensures few { result ≤ 32 }
    {
        self.workers.unwrap_or(1) as u32
    }

    /// The bytes of an image's heap.
    pub fn heap(self) -> u64
        requires { AreFit self }
        ensures value { result ≡ value_of self Setting.Heap }
        ensures least { 4096 ≤ result }
        ensures most { result ≤ 2 ^ 30 }
        ensures aligned { result % 16 ≡ 0 }
    {
        self.heap.unwrap_or(0x400_0000)
    }

    /// How many instructions an emulated image may do.
    pub fn steps(self) -> u64
        ensures { result ≡ value_of self Setting.Steps }
    {
        self.steps.unwrap_or(1_000_000_000)
    }
}

impl Range {
    fn has(self, number: u64) -> bool
        requires { 0 < self.multiple }
        ensures { result ≡ is_in self number }
    {
        self.least <= number && number <= self.most && number % self.multiple == 0
    }

    /// The number of this range that a word is, in decimal without a leading 0.
    pub fn number(self, word: &str) -> Option<u64>
        requires { 0 < self.multiple }
        ensures { result ≡ number_in self word.now }
    {
        let Ok(number) = word.parse::<u64>() else {
            return None;
        };
        let mut buffer = Buffer::new();
        if word == buffer.format(number) && self.has(number) {
            Some(number)
        } else {
            None
        }
    }
}

/// How many procedures may be made.
const COUNTS: Range = Range {
    least: 0,
    most: 1000,
    multiple: 1,
};

/// How many procedures a word asks for.
pub(crate) fn count_in(word: &str) -> Option<u64>
    ensures { result ≡ number_in counts word.now }
{
    COUNTS.number(word)
}

/// Whether a word can be this operand.
pub(crate) fn is_operand(operand: Option<&Operand>, word: &str) -> bool
    ensures { result ≡ is_operand (option_copied operand.entry) word.now }
{
    match operand {
        Some(Operand::File) => !word.is_empty(),
        Some(Operand::Count) => count_in(word).is_some(),
        None => false,
    }
}
