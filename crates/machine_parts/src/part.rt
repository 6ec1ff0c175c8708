use crate::open::Open;
use file_log::{Call, Reply};

/// What a part is after a reply: there is more of it, or it is over, with these slots open and this result.
#[derive(Debug, Drop)]
pub enum After<P, T> {
    More(P),
    Over(Open, T),
}

/// A part of an operation: it always has a call to ask, and is fed no failure and no want of memory.
pub trait Part {
    ghost use Rattle.std.specs.Prelude.{◌≡◌, ℕ, true};
    ghost use Rattle.file_log.specs.declared.call.Call.{Call};
    ghost use Rattle.file_log.specs.declared.reply.Reply.{Reply};
    ghost use Rattle.file_log.specs.Exchange.{Answers};
    ghost use Rattle.machine_parts.specs.declared.open.Open.{Open};
    ghost use Rattle.machine_parts.specs.declared.part.After.{After};
    ghost use Rattle.machine_parts.specs.Parts.{FitsCall, Bears, Follows};

    /// What it gives.
    type Out;

    /// What holds of it from its making on. The laws below speak of parts of which it does.
    ghost right: { Self → Type 0 };
    /// What it asks.
    ghost asks: { Self → Call };
    /// The part after that.
    ghost asked: { Self → Self };
    /// What it may be after a reply.
    ghost fed: { Self → Reply → After Self Self.Out → Type 0 };
    /// The slots that are open.
    ghost slots: { Self → Open };
    /// At most so many calls are left, with those that close what is open after a failure or after its end.
    ghost left: { Self → ℕ };

    /// What it asks.
    fn next(&mut self) -> Call
        ensures call { result ≡ asks self.old }
        ensures after { self.new ≡ asked self.old };

    /// Gives it the reply.
    fn feed(self, reply: Reply) -> After<Self, Self::Out>
        ensures { fed self reply result };

    /// The slots that are open.
    fn slots(&self) -> Open
        ensures { result ≡ slots self.now };

    /// Asking opens and closes nothing.
    ghost still: { (p : Self) → slots (asked p) ≡ slots p };
    /// It asks for calls that its slots allow, with a call left.
    ghost fits: { (p : Self) → right p → FitsCall (slots p) (left p) (asks p) };
    /// Where its call fails, so many calls are left as slots are open.
    ghost bears: { (p : Self) (reply : Reply) → right p → Answers true (asks p) reply → Bears (slots p) (left p) reply };
    /// A good reply changes its slots as it does those of the seat, and leaves a call less.
    ghost goes_on: { (p : Self) (reply : Reply) (r : After Self Self.Out) → right p → fed (asked p) reply r → Follows right slots left (slots p) (left p) (asks p) reply r };
}
