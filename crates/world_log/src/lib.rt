//! A log judged by itself: whether it can be, and whether its seats kept the rules among them.
#![tactic(auto)]

mod address;
mod changing;
mod check;
mod entries;
mod evictions;
mod groups;
mod kinds;
mod leaving;
mod ledger;
mod looks;
mod making;
mod passing;
mod puts;
mod puts_at;
mod same;
mod verdict;

pub use check::check_log;
pub use verdict::Verdict;
