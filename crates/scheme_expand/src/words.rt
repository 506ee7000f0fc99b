//! Names by numbers, the keywords and the library's known names first.

ghost use Rattle.std.specs.Prelude.{ℕ, ◌≡◌, [], ◌∷◌, List as Seq, map, length, slice_get, IfOk, OnOk, IfSome, MatchOption, Some, None};
ghost use Rattle.scheme_base.specs.declared.pos.Pos.{Pos as Place};
ghost use Rattle.draft_form.specs.Drafts.{Drafts as Trees};
ghost use Rattle.draft_form.specs.Drawn.{word_name};
ghost use Rattle.scheme_expand.specs.Calls.{integrated};
ghost use Rattle.scheme_expand.specs.KnownNames.{call_kind};
ghost use Rattle.scheme_expand.specs.Making.{known_draft};
ghost use Rattle.scheme_expand.specs.Waiting.{keyword_at, name_of};
ghost use Rattle.scheme_expand.specs.Naming.{IsTable, HasHelpers, Adds, Grows, IsNumbered, Names, IsWordOf, name_list, keyword_names, call_name, known_names, operation_names};
ghost use Rattle.scheme_expand.specs.Shapes.{defines, begins_lambda};

use datum_form::{Kind, Node};
use indexmap::IndexSet;
use scheme_base::{OPERATIONS, Op};
use std::alloc::{AllocError, Global};

/// The keywords (R4RS 7.1.1).
#[derive(Clone, Copy, Debug, PartialEq, Eq)]
pub(crate) enum Keyword {
    Quote,
    Lambda,
    If,
    Set,
    Begin,
    Cond,
    And,
    Or,
    Case,
    Let,
    LetStar,
    Letrec,
    Do,
    Delay,
    Quasiquote,
    Else,
    Arrow,
    Define,
    Unquote,
    Splice,
}

/// How two integers are compared.
#[derive(Clone, Copy, Debug, PartialEq, Eq)]
pub(crate) enum Comparison {
    Equal,
    Less,
    Greater,
    AtMost,
    AtLeast,
}

/// What a call of a name of the library is, where the count of its operands is right.
#[derive(Clone, Copy, Debug)]
pub(crate) enum Known {
    Operation(Op),
    Not,
    /// An operation over any number of integers, from the left, from this integer on.
    Fold(Op, i64),
    /// The same, with one operand at least.
    Subtract,
    Compare(Comparison),
    List,
    /// The list of the program's literal symbols.
    Symbols,
}

const KEYWORDS: [Keyword; 20] = [
    Keyword::Quote,
    Keyword::Lambda,
    Keyword::If,
    Keyword::Set,
    Keyword::Begin,
    Keyword::Cond,
    Keyword::And,
    Keyword::Or,
    Keyword::Case,
    Keyword::Let,
    Keyword::LetStar,
    Keyword::Letrec,
    Keyword::Do,
    Keyword::Delay,
    Keyword::Quasiquote,
    Keyword::Else,
    Keyword::Arrow,
    Keyword::Define,
    Keyword::Unquote,
    Keyword::Splice,
];

impl Keyword {
    /// Whether this is `define`.
    pub(crate) fn is_define(self) -> bool
        ensures { result ≡ defines self }
    {
        match self {
            Keyword::Define => true,
            _ => false,
        }
    }

    /// Whether this is `lambda`.
    pub(crate) fn is_lambda(self) -> bool
        ensures { result ≡ begins_lambda self }
    {
        match self {
            Keyword::Lambda => true,
            _ => false,
        }
    }

    fn name(self) -> &'static [u8]
        ensures { result.now ≡ name_of self }
    {
        match self {
            Keyword::Quote => b"quote",
            Keyword::Lambda => b"lambda",
            Keyword::If => b"if",
            Keyword::Set => b"set!",
            Keyword::Begin => b"begin",
            Keyword::Cond => b"cond",
            Keyword::And => b"and",
            Keyword::Or => b"or",
            Keyword::Case => b"case",
            Keyword::Let => b"let",
            Keyword::LetStar => b"let*",
            Keyword::Letrec => b"letrec",
            Keyword::Do => b"do",
            Keyword::Delay => b"delay",
            Keyword::Quasiquote => b"quasiquote",
            Keyword::Else => b"else",
            Keyword::Arrow => b"=>",
            Keyword::Define => b"define",
            Keyword::Unquote => b"unquote",
            Keyword::Splice => b"unquote-splicing",
        }
    }
}

const KNOWN: [(&[u8], Known); 49] = [
    (b"eqv?", Known::Operation(Op::Eqv)),
    (b"eq?", Known::Operation(Op::Eqv)),
    (b"pair?", Known::Operation(Op::IsPair)),
    (b"symbol?", Known::Operation(Op::IsSymbol)),
    (b"string?", Known::Operation(Op::IsString)),
    (b"vector?", Known::Operation(Op::IsVector)),
    (b"procedure?", Known::Operation(Op::IsProcedure)),
    (b"integer?", Known::Operation(Op::IsInteger)),
    (b"number?", Known::Operation(Op::IsInteger)),
    (b"rational?", Known::Operation(Op::IsInteger)),
    (b"real?", Known::Operation(Op::IsInteger)),
    (b"complex?", Known::Operation(Op::IsInteger)),
    (b"char?", Known::Operation(Op::IsChar)),
    (b"boolean?", Known::Operation(Op::IsBoolean)),
    (b"null?", Known::Operation(Op::IsNull)),
    (b"eof-object?", Known::Operation(Op::IsEof)),
    (b"cons", Known::Operation(Op::Cons)),
    (b"car", Known::Operation(Op::Car)),
    (b"cdr", Known::Operation(Op::Cdr)),
    (b"set-car!", Known::Operation(Op::SetCar)),
    (b"set-cdr!", Known::Operation(Op::SetCdr)),
    (b"quotient", Known::Operation(Op::Quotient)),
    (b"remainder", Known::Operation(Op::Remainder)),
    (b"modulo", Known::Operation(Op::Modulo)),
    (b"char->integer", Known::Operation(Op::CharToInteger)),
    (b"integer->char", Known::Operation(Op::IntegerToChar)),
    (b"symbol->string", Known::Operation(Op::SymbolName)),
    (b"string-length", Known::Operation(Op::StringLength)),
    (b"string-ref", Known::Operation(Op::StringRef)),
    (b"string-set!", Known::Operation(Op::StringSet)),
    (b"vector-length", Known::Operation(Op::VectorLength)),
    (b"vector-ref", Known::Operation(Op::VectorRef)),
    (b"vector-set!", Known::Operation(Op::VectorSet)),
    (b"read-char", Known::Operation(Op::ReadChar)),
    (b"peek-char", Known::Operation(Op::PeekChar)),
    (b"write-char", Known::Operation(Op::WriteChar)),
    (
        b"call-with-current-continuation",
        Known::Operation(Op::CallCC),
    ),
    (b"apply", Known::Operation(Op::Apply)),
    (b"not", Known::Not),
    (b"+", Known::Fold(Op::Add, 0)),
    (b"*", Known::Fold(Op::Multiply, 1)),
    (b"-", Known::Subtract),
    (b"=", Known::Compare(Comparison::Equal)),
    (b"<", Known::Compare(Comparison::Less)),
    (b">", Known::Compare(Comparison::Greater)),
    (b"<=", Known::Compare(Comparison::AtMost)),
    (b">=", Known::Compare(Comparison::AtLeast)),
    (b"list", Known::List),
    (b"%symbols", Known::Symbols),
];

/// The keyword that the name of this number is.
pub(crate) fn keyword_of(word: u32) -> Option<Keyword>
    ensures { result ≡ keyword_at word }
{
    Some(*KEYWORDS.get(word as usize)?)
}

/// What a call of the library's name of this number is.
pub(crate) fn known_of(word: u32) -> Option<Known>
    ensures fault { IfSome result (λ known. keyword_at word ≡ None) }
    ensures core { (names : Seq (Seq ℕ)) (x : Seq ℕ) (p : Place) (level : ℕ) (es : Trees) → IsTable names → slice_get names word ≡ Some x → MatchOption result (integrated p level x es ≡ None) (λ known. integrated p level x es ≡ known_draft p level known es) }
{
    let at = (word as usize).checked_sub(KEYWORDS.len())?;
    let known = KNOWN;
    if let Some(call) = call_in(&known, at) {
        return Some(call);
    }
    let op = OPERATIONS.get(at.checked_sub(KNOWN.len())?)?;
    Some(Known::Operation(*op))
}

/// What a call of the name at a place of a table is.
fn call_in(known: &[(&[u8], Known)], at: usize) -> Option<Known>
    ensures { result ≡ slice_get (map call_kind known.now) at }
{
    match known.get(at) {
        Some((_, call)) => Some(*call),
        None => None,
    }
}

/// The numbers of the library's procedures that rewritten forms call.
#[derive(Clone, Copy, Debug)]
pub(crate) struct Helpers {
    pub(crate) join: u32,
    pub(crate) list_to_vector: u32,
}

/// Names in the order in which they were first seen; the number of a name is its index.
#[derive(Drop)]
pub(crate) struct Words<'a> {
    names: IndexSet<&'a [u8]>,
    pub(crate) helpers: Helpers,
}

impl<'a> Words<'a> {
    /// The keywords and the names whose calls are known.
    pub(crate) fn new(alloc: Global) -> Result<Words<'a>, AllocError>
        ensures table { IfOk result (λ words. IsTable (name_list words)) }
        ensures helpers { IfOk result (λ words. HasHelpers (name_list words) words.helpers) }
    {
        let mut words = Words {
            names: IndexSet::new(alloc),
            helpers: Helpers {
                join: 0,
                list_to_vector: 0,
            },
        };
        words.add_keywords()?;
        words.add_known()?;
        words.add_operations()?;
        let join = words.number(b"%join")?;
        let list_to_vector = words.number(b"list->vector")?;
        words.helpers = Helpers {
            join,
            list_to_vector,
        };
        Ok(words)
    }

    /// Numbers the keywords.
    fn add_keywords(&mut self) -> Result<(), AllocError>
        ensures { OnOk result (Adds (name_list self.old) keyword_names (name_list self.new)) }
    {
        for keyword in KEYWORDS {
            self.add(keyword.name())?;
        }
        Ok(())
    }

    /// Numbers the names whose calls become operations at once.
    fn add_known(&mut self) -> Result<(), AllocError>
        ensures { OnOk result (Adds (name_list self.old) known_names (name_list self.new)) }
    {
        let known = KNOWN;
        self.add_calls(&known)
    }

    /// Numbers the names of a table of calls.
    fn add_calls(&mut self, known: &[(&'a [u8], Known)]) -> Result<(), AllocError>
        ensures { OnOk result (Adds (name_list self.old) (map call_name known.now) (name_list self.new)) }
    {
        for (name, _) in known {
            self.add(*name)?;
        }
        Ok(())
    }

    /// Numbers the operations' names.
    fn add_operations(&mut self) -> Result<(), AllocError>
        ensures { OnOk result (Adds (name_list self.old) operation_names (name_list self.new)) }
    {
        for op in OPERATIONS {
            self.add(op.name().as_bytes())?;
        }
        Ok(())
    }

    /// Numbers a name of the tables, in which no name stands twice.
    fn add(&mut self, name: &'a [u8]) -> Result<(), AllocError>
        ensures { OnOk result (Adds (name_list self.old) (name.now ∷ []) (name_list self.new)) }
    {
        let next = self.names.len();
        let word = self.number(name)?;
        if (word as usize) < next {
            return Err(AllocError);
        }
        Ok(())
    }

    /// How many names there are.
    pub(crate) fn len(&self) -> usize
        ensures { result ≡ length self.now.names.keys }
    {
        self.names.len()
    }

    /// All names.
    pub(crate) fn all(&self) -> &[&'a [u8]]
        ensures { result.now ≡ self.now.names.keys }
    {
        self.names.as_slice()
    }

    /// The name of a number.
    pub(crate) fn name(&self, word: u32) -> &'a [u8]
        ensures { result.now ≡ word_name self.now.names.keys word }
    {
        match self.names.get_index(word as usize) {
            Some(name) => *name,
            None => b"",
        }
    }

    /// The number of a name. No text has an empty one.
    fn number(&mut self, name: &'a [u8]) -> Result<u32, AllocError>
        ensures number { IfOk result (λ word. IsNumbered (name_list self.old) (name_list self.new) name.now word) }
        ensures helpers { OnOk result (self.new.helpers ≡ self.old.helpers) }
    {
        if name.is_empty() {
            return Err(AllocError);
        }
        let (index, _) = self.names.insert_full(name)?;
        let Ok(word) = u32::try_from(index) else {
            return Err(AllocError);
        };
        Ok(word)
    }

    /// The number of the name that each node is, if it is one.
    pub(crate) fn numbers(
        &mut self,
        alloc: Global,
        nodes: &'a [Node],
    ) -> Result<Vec<Option<u32>>, AllocError>
        ensures names { IfOk result (λ numbers. Names (name_list self.old) (name_list self.new) numbers.items nodes.now) }
        ensures helpers { OnOk result (self.new.helpers ≡ self.old.helpers) }
    {
        let mut numbers = Vec::new(alloc);
        let mut rest = nodes;
        while let Some((first, others)) = rest.split_first() {
            let number = self.number_in(&first.kind)?;
            numbers.push(number)?;
            rest = others;
        }
        Ok(numbers)
    }

    /// The number of the name that a node is, if it is one.
    fn number_in(&mut self, kind: &'a Kind) -> Result<Option<u32>, AllocError>
        ensures grows { OnOk result (Grows (name_list self.old) (name_list self.new)) }
        ensures word { IfOk result (λ number. IsWordOf (name_list self.new) number kind.now) }
        ensures helpers { OnOk result (self.new.helpers ≡ self.old.helpers) }
    {
        match kind {
            Kind::Name(name) => {
                let word = self.number(name.as_slice())?;
                Ok(Some(word))
            }
            _ => Ok(None),
        }
    }
}
