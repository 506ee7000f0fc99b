//! Reading the words of a command from left to right, for every row of the table.
ghost use Rattle.std.specs.Prelude.{◌≡◌, ◌<◌, drop, length, slice_get, IfOk, IfSome};
ghost use Rattle.std.specs.Option.{option_map};
ghost use Rattle.stalin_top.specs.Command.{nothing_said, reading, shape_of, setting_of, task_in, task_said, with_operand, with_option, with_value, with_word};
ghost use Rattle.stalin_top.specs.Given.{AreFit, IsReady, read_as, said_by, task_by};

use crate::shape::{Setting, Settings, Verb, count_in, is_operand};
use scheme_base::Words;

/// A command with its operands and options.
#[derive(Clone, Copy, Debug)]
pub(crate) enum Command<'a> {
    /// Writes the image of the source file to the image file.
    Compile {
        source: &'a str,
        image: &'a str,
        workers: u32,
        heap: u64,
    },
    /// Builds the image of the source file and emulates it for so many steps at most.
    Run {
        source: &'a str,
        workers: u32,
        heap: u64,
        steps: u64,
    },
    /// Emulates the image file for so many steps at most.
    Emulate {
        image: &'a str,
        steps: u64,
    },
    /// Prints what each expression of the source file can be.
    Facts {
        source: &'a str,
        workers: u32,
    },
    /// Prints the numbers of a program of so many procedures.
    Make {
        count: u64,
        workers: u32,
        heap: u64,
    },
}

/// What the words so far have said; `pending` is an option whose value comes next.
#[derive(Clone, Copy, Debug)]
struct Given<'a> {
    first: Option<&'a str>,
    second: Option<&'a str>,
    settings: Settings,
    pending: Option<Setting>,
}

/// The command that the words give, or the number of the first broken word.
pub(crate) fn read_command(words: &Words) -> Result<Command<'_>, u32>
    ensures task { read_as result ≡ task_in words.now }
    ensures ready { IfOk result IsReady }
{
    match words.word(0) {
        Some(name) => match Verb::named(name) {
            Some(verb) => read_words(verb, words),
            None => Err(1),
        },
        None => Err(1),
    }
}

/// What the words after the first say.
fn read_words(verb: Verb, words: &Words) -> Result<Command<'_>, u32>
    requires { 0 < length words.now }
    ensures task { read_as result ≡ reading verb 2 (drop 1 words.now) nothing_said }
    ensures ready { IfOk result IsReady }
{
    let mut given = Given {
        first: None,
        second: None,
        settings: Settings {
            workers: None,
            heap: None,
            steps: None,
        },
        pending: None,
    };
    for at in 1..words.len() {
        let word = words.word(at).unwrap_or("");
        match given.with(verb, word) {
            Some(more) => given = more,
            None => return Err(at as u32 + 1),
        }
    }
    given.command(verb).ok_or(words.len() as u32 + 1)
}

impl<'a> Given<'a> {
    /// What is said with one word more; None where it is broken.
    fn with(self, verb: Verb, word: &'a str) -> Option<Given<'a>>
        ensures said { option_map said_by result ≡ with_word (shape_of verb) self.entry.pending word.now (said_by self.entry) }
        ensures fit { AreFit self.entry.settings → IfSome result (λ more. AreFit more.settings) }
    {
        match self.pending {
            Some(setting) => self.with_value(setting, word),
            None if word.as_bytes().starts_with(b"--") => self.with_option(verb, word),
            None => self.with_operand(verb, word),
        }
    }

    fn with_value(self, setting: Setting, word: &'a str) -> Option<Given<'a>>
        ensures said { option_map said_by result ≡ with_value setting word.now (said_by self.entry) }
        ensures fit { AreFit self.entry.settings → IfSome result (λ more. AreFit more.settings) }
    {
        let value = setting.range().number(word)?;
        Some(Given {
            settings: self.settings.with(setting, value),
            pending: None,
            ..self
        })
    }

    fn with_option(self, verb: Verb, word: &'a str) -> Option<Given<'a>>
        ensures said { option_map said_by result ≡ with_option (shape_of verb).options (setting_of word.now) (said_by self.entry) }
        ensures same { IfSome result (λ more. more.settings ≡ self.entry.settings) }
    {
        let setting = Setting::named(word)?;
        if verb.options().takes(setting) && self.settings.given(setting).is_none() {
            Some(Given {
                pending: Some(setting),
                ..self
            })
        } else {
            None
        }
    }

    fn with_operand(self, verb: Verb, word: &'a str) -> Option<Given<'a>>
        ensures said { option_map said_by result
            ≡ with_operand (slice_get (shape_of verb).operands (length (said_by self.entry).operands)) word.now (said_by self.entry) }
        ensures same { IfSome result (λ more. more.settings ≡ self.entry.settings) }
    {
        let operands = verb.operands();
        match self.first {
            None => {
                if !is_operand(operands.first(), word) {
                    return None;
                }
                Some(Given {
                    first: Some(word),
                    second: None,
                    ..self
                })
            }
            Some(_) => {
                if self.second.is_some() || !is_operand(operands.get(1), word) {
                    return None;
                }
                Some(Given {
                    second: Some(word),
                    ..self
                })
            }
        }
    }

    /// The command that is said, where no word is missing.
    fn command(self, verb: Verb) -> Option<Command<'a>>
        requires { AreFit self.settings }
        ensures task { option_map task_by result ≡ task_said verb self.entry.pending (said_by self.entry) }
        ensures ready { IfSome result IsReady }
    {
        if self.pending.is_some() {
            return None;
        }
        let first = self.first?;
        match verb {
            Verb::Compile => Some(Command::Compile {
                source: first,
                image: self.second?,
                workers: self.settings.workers(),
                heap: self.settings.heap(),
            }),
            Verb::Run => match self.second {
                None => Some(Command::Run {
                    source: first,
                    workers: self.settings.workers(),
                    heap: self.settings.heap(),
                    steps: self.settings.steps(),
                }),
                Some(_) => None,
            },
            Verb::Emulate => match self.second {
                None => Some(Command::Emulate {
                    image: first,
                    steps: self.settings.steps(),
                }),
                Some(_) => None,
            },
            Verb::Facts => match self.second {
                None => Some(Command::Facts {
                    source: first,
                    workers: self.settings.workers(),
                }),
                Some(_) => None,
            },
            Verb::Make => match self.second {
                None => Some(Command::Make {
                    count: count_in(first)?,
                    workers: self.settings.workers(),
                    heap: self.settings.heap(),
                }),
                Some(_) => None,
            },
        }
    }
}
