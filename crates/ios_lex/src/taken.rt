/// What becomes of a line that is not refused.
#[derive(Clone, Copy, Debug, PartialEq, Eq)]
pub enum Taken {
    /// It says something.
    Modelled,
    /// It changes nothing, and is counted.
    Ignored,
}
