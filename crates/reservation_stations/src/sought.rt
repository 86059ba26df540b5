/// What a search among the stations looks for.
#[derive(Clone, Copy, Debug, PartialEq, Eq)]
pub enum Sought {
    /// A station that waits and whose operands have values.
    Ready,
    /// A station that executes.
    Executing,
}
