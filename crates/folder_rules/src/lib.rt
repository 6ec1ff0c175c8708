//! The folder layout's part of the rules among seats: what a store holds, which entries are whole, how they come
//! and go. No code calls these laws.
#![tactic(auto)]

ghost use Rattle.cache_types.specs.declared.store.Layout.TheVariants.{Folder};
ghost use Rattle.folder_rules.specs.Part.{folder_part};
ghost use Rattle.seat_rules.specs.Served.{IsServed};

/// Where folder stores keep their part of the rules, what they hold was put there, and what they held they hold
/// until it is evicted.
pub fn folders_are_served()
    ensures { IsServed Folder folder_part }
{}
