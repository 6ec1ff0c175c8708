//! The rules among seats on stores of all layouts, joined from what they share and the part of each layout, over
//! places of the log of all seats; and what follows from them: each hit gives what was put, and what was stored
//! is found. No code calls these laws.
#![tactic(auto)]

ghost use Rattle.layout_rules.specs.Laws.{HoldAlong, AreKeptByEach, AreServed, KeepersAreServed};

/// The rules hold at each place of a log exactly where they hold of each item, one after another; and a
/// log breaks none exactly where each seat keeps them.
pub fn rules_hold_along_logs()
    ensures along { HoldAlong }
    ensures each { AreKeptByEach }
{}

/// In each log that can be, begins on an empty disk and has no place that breaks a rule, each hit gives
/// what was put there. While no process was stopped and no call failed, each lookup finds what was stored
/// or kept before it and is not evicted since, unless it is busy or out of memory. A put that stored its blob
/// left its store within its limit, where its layout has one.
pub fn all_are_served()
    ensures { AreServed }
{}

/// The same of each log in which every seat keeps the rules as the program's top call does: whatever others do
/// and wherever they are stopped, the seat's own items aren't the first to break one.
pub fn keepers_are_served()
    ensures { KeepersAreServed }
{}
