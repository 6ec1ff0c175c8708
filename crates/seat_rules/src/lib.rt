//! What the rules among seats are on stores of any layout: names and the lock that guards each, operations
//! and Evicts, places of the log of all seats, which answers end which requests, and what a log of them
//! promises. A layout's own crate says what its stores hold. No code calls these laws.
#![tactic(auto)]

ghost use Rattle.seat_rules.specs.Laws.{OperationsAreOne};

/// At the end of each log a seat is in one operation at most: it began in one way, at one place.
pub fn operations_are_one()
    ensures { OperationsAreOne }
{}
