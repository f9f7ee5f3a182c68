/// Where a pattern stands: between the slashes of a literal, or in quotes as an argument of `RegExp`.
#[derive(Clone, Copy, Debug, PartialEq, Eq)]
pub enum Form {
    Literal,
    Constructor,
}
