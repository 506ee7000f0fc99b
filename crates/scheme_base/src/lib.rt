//! What every crate stands on: lists that contracts see as lists, positions in a text, the limits of a
//! source, the words of a command, the outside of a run, literals, the texts of atoms, and the primitive
//! operations.
//!
//! `specs/Values` has the values and the objects of a run, `specs/Constants` and `specs/Literals` the
//! constants of a program and the objects that they are, `specs/Operands` and `specs/Operations` what each
//! operation takes and does, and `specs/Stops` how a run stops. The machines of all forms of a program share
//! them. `operations` has the laws of all operations; `proofs/OperationChecks` has each operation with each
//! of its results and errors.
//!
//! `specs/Outside` says what passes on a run's channels under an environment, `specs/Runs` what a machine is
//! and when two runs are the same to everybody outside, and `specs/Heaps` what a run in a heap of some size
//! is: a machine again, so that one relation compares a program with its image. `runs` and `heaps` have their
//! laws. `proofs/Simulations` has the lemma by which each pass of the compiler turns a simulation in one
//! direction into both directions; `proofs/Fixtures` is for computed runs.
#![tactic(auto)]

mod atom;
mod env;
mod error;
mod law;
mod limit;
mod list;
mod lit;
mod op;
mod place;
mod pos;
mod words;

pub use atom::{write_boolean, write_character, write_integer, write_string};
pub use env::Env;
pub use error::{ErrKind, LimitErr};
pub use law::{heaps, operations, runs};
pub use limit::{Limit, LimitKind};
pub use list::List;
pub use lit::{Lit, Lits};
pub use op::{OPERATIONS, Op};
pub use place::{Mark, Stated};
pub use pos::Pos;
pub use words::Words;

/// A list of bytes.
pub type Bytes = List<u8>;

/// A list of numbers that name things: variables, nodes, procedures.
pub type Ids = List<u32>;

/// A list of numbers.
pub type Numbers = List<u64>;

/// The items of an input: a byte, or an end of the input.
pub type Reads = List<Option<u8>>;

/// A list of texts, each by its bytes.
pub type Texts = List<Bytes>;

/// A list of lists of numbers that name things.
pub type Uses = List<Ids>;
