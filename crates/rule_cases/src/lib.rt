//! The rules among seats, item by item: what an item does to names and files decides which few tests it has to pass.
//! No code calls these laws.
#![tactic(auto)]

ghost use Rattle.rule_cases.specs.Laws.{AreTestedByCases, AreTestedAlong, LeaveEntries};

/// In a log that can be, the first item that fails the tests by cases is the first that breaks a rule.
pub fn rules_by_cases()
    ensures { AreTestedByCases }
{}

/// So the tests by cases find whether no place of a log breaks a rule, and whether a seat has no item at
/// the first place that does.
pub fn logs_by_cases()
    ensures { AreTestedAlong }
{}

/// After a log all of whose items pass the tests by cases, one more that passes leaves the bytes of every file
/// that an entry has or had, be it a seat's item or none's.
pub fn entries_keep_bytes()
    ensures { LeaveEntries }
{}
