use crate::{Numbers, Reads};

/// What a run finds outside: the items of its input, and which of its calls fail.
///
/// Calls on channels 0 and 1 are counted together from 1, and `failing` lists those that fail; calls on
/// channel 2 are counted by themselves from 1, and `err_failing` lists those that fail. `specs/Outside`
/// says what each call then answers.
#[derive(Debug, Drop)]
pub struct Env {
    pub input: Reads,
    pub failing: Numbers,
    pub err_failing: Numbers,
}
