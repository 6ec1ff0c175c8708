use cache_types::Answer;
use file_log::{Call, Reply};

/// What a machine wants next.
#[derive(Debug, Drop)]
pub enum Step {
    /// A reply to this call.
    Ask(Call),
    /// Nothing: this is its answer.
    Done(Answer),
}

/// What an operation does, one call after another. `next` and `feed` alternate and begin with `next`; after
/// `Done` neither is called. `next` takes no memory.
pub trait Machine {
    ghost use Rattle.std.specs.Prelude.{◌≡◌, ℕ, Bool, true};
    ghost use Rattle.files_api.specs.declared.machine.Step.{Step};
    ghost use Rattle.files_api.specs.declared.machine.Step.TheVariants.{Ask};
    ghost use Rattle.file_log.specs.declared.call.Call.{Call};
    ghost use Rattle.file_log.specs.declared.reply.Reply.{Reply};
    ghost use Rattle.file_log.specs.Exchange.{Answers};
    ghost use Rattle.files_api.specs.Drive.{Allows, Goes};

    /// What holds of it from its making on. The laws below speak of machines of which it does.
    ghost right: { Self → Type 0 };
    /// What it wants next.
    ghost asks: { Self → Step };
    /// The machine after that.
    ghost asked: { Self → Self };
    /// What it may be after a reply.
    ghost fed: { Self → Reply → Self → Type 0 };
    /// The slots that it has filled.
    ghost slots: { Self → ℕ → Bool };
    /// Whether a call of its may have failed.
    ghost hurt: { Self → Bool };
    /// At most so many calls are left.
    ghost left: { Self → ℕ };

    /// What it wants next.
    fn next(&mut self) -> Step
        ensures step { result ≡ asks self.old }
        ensures after { self.new ≡ asked self.old };

    /// Gives it the reply to the call that it asked for.
    fn feed(&mut self, reply: Reply)
        ensures { fed self.old reply self.new };

    /// It asks for calls that its slots allow, and is done only where it has closed all of them.
    ghost allowed: { (m : Self) → right m → Allows (slots m) (hurt m) (asks m) };
    /// A reply that the call has changes its slots as it does those of the seat, and leaves a call less.
    ghost goes_on: { (m n : Self) (reply : Reply) → right m → fed (asked m) reply n → Goes (slots m) (hurt m) (left m) (asks m) reply (slots n) (hurt n) (left n) };
    /// It holds after each reply that the call has.
    ghost stays: { (m n : Self) (call : Call) (reply : Reply) → right m → asks m ≡ Ask call → Answers true call reply → fed (asked m) reply n → right n };
}
