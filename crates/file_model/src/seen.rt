/// What the log says of a seat: which of its eight slots are filled, whether an operation of it is
/// open, and whether a call of that operation that is no Tell failed or was refused memory.
#[derive(Clone, Copy, Debug, PartialEq, Eq)]
pub struct Seen {
    pub filled: [bool; 8],
    pub inside: bool,
    pub hurt: bool,
}
