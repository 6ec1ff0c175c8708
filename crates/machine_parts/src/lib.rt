//! Machines made of parts.
//!
//! A [`Part`] makes calls one after another, sees no failure, and gives a result. [`Whole`] makes a machine of a part that
//! gives an answer: it answers for failures, closes what is open, and then gives the answer. [`Reading`] reads a whole file,
//! and [`Judged`] has a named judge look at what a part gave. [`Open`] says which slots are open.
#![tactic(auto)]

mod judged;
mod open;
mod part;
mod reading;
mod whole;

pub use judged::{Judge, Judged};
pub use open::Open;
pub use part::{After, Part};
pub use reading::{OldFile, Reading};
pub use whole::Whole;
