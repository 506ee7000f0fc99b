/// A piece of a core's text that is still to be written. Numbers are those of expressions and literals.
#[derive(Clone, Copy, Debug)]
pub(crate) enum Piece<'a> {
    Expr(u32),
    /// A space and an expression.
    Next(u32),
    /// A space and expressions in parentheses.
    List(&'a [u32]),
    /// The expressions of a list after its first, and its end.
    Rest(&'a [u32]),
    Literal(u32),
    /// What follows an item in a literal list, and its end.
    Tail(u32),
    /// The items of a literal vector after its first, and its end.
    More(&'a [u32]),
    Close,
}
