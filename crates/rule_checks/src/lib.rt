//! The rules among seats as tests of what a log says at a place, carried along the log, and that they
//! tell just which items keep the rules. No code calls these laws.
#![tactic(auto)]

ghost use Rattle.rule_checks.specs.Laws.{AreDecided, AreDecidedAlong};

/// What a log says at a place tells by tests whether the item there keeps the rules, where the log can be
/// and no place before breaks one. So the tests find whether no place of a log breaks a rule, and whether
/// a seat has no item at the first place that does.
pub fn rules_are_decided()
    ensures places { AreDecided }
    ensures along { AreDecidedAlong }
{}
