//! The log of all seats, of which some are set apart and may break the rules among seats, and the others
//! follow their machines. No code calls these laws.
#![tactic(auto)]

ghost use Rattle.seat_order.specs.Laws.{IsOrderlyAtFirst, AnyPass, AllCooperate, AllOperate};

/// Whatever seats that are set apart do, no other seat is the first to break a rule, and each is where its
/// machine has it. So where none of those is the first either, no place of the log breaks a rule. And each
/// operation of another seat makes few calls, in its store's root, and ends with an answer of its request.
pub fn others_keep_the_rules()
    ensures first { IsOrderlyAtFirst }
    ensures pass { AnyPass }
    ensures all { AllCooperate }
    ensures operate { AllOperate }
{}
