/// A variable of a query, by its number. The variables of a query are numbered from 0, in order of first
/// occurrence in its text.
#[derive(Clone, Copy, Debug, PartialEq, Eq)]
pub struct Var(pub u8);
