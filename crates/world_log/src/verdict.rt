/// What is found of a log that begins on an empty disk. Places are items' numbers, from 0.
#[derive(Clone, Copy, Debug, PartialEq, Eq)]
pub enum Verdict {
    /// Each item can come at its place and keeps the rules among seats, each hit gives what was put, and
    /// each lookup finds what is promised to it.
    Good,
    /// The first item that can't come at its place is this one.
    IllegalAt(u64),
    /// Each item can come at its place. The first that breaks a rule, or is the hit of a lookup of what
    /// wasn't put, or the answer of a lookup that misses what is promised to it, is this one.
    BrokenAt(u64),
}
