ghost use Rattle.std.specs.Prelude.{◌≡◌};

use crate::open::Open;
use crate::part::{After, Part};
use file_log::{Call, Reply};

/// A judge of what a part gives.
pub trait Judge<P: Part> {
    /// What it makes of that.
    type Verdict;

    /// Which verdicts it may give.
    ghost judges: { Self → P.Out → Self.Verdict → Type 0 };

    /// What it makes of that.
    fn judge(self, given: P::Out) -> Self::Verdict
        ensures { judges self given result };
}

/// A part whose result is judged.
#[derive(Debug, Drop)]
pub struct Judged<P, J> {
    part: P,
    judge: J,
}

impl<P, J> Judged<P, J> {
    /// A part and its judge.
    pub fn new(part: P, judge: J) -> Judged<P, J>
        ensures { result ≡ record { part = part; judge = judge } }
    {
        Judged { part, judge }
    }
}

impl<P: Part, J: Judge<P>> Part for Judged<P, J> {
    ghost use Rattle.machine_parts.specs.Judging.{judged_right, judged_asks, judged_asked, JudgedFed, judged_slots, judged_left};
    ghost use Rattle.machine_parts.specs.JudgingLaws.{judged_still, judged_fits, judged_bears, judged_goes_on};

    type Out = J::Verdict;

    ghost right = { judged_right P.right };

    ghost asks = { judged_asks P.asks };

    ghost asked = { judged_asked P.asked };

    ghost fed = { JudgedFed P.fed J.judges };

    ghost slots = { judged_slots P.slots };

    ghost left = { judged_left P.left };

    fn next(&mut self) -> Call {
        self.part.next()
    }

    fn feed(self, reply: Reply) -> After<Self, J::Verdict> {
        let judge = self.judge;
        match self.part.feed(reply) {
            After::More(part) => After::More(Judged { part, judge }),
            After::Over(slots, given) => After::Over(slots, judge.judge(given)),
        }
    }

    fn slots(&self) -> Open {
        self.part.slots()
    }

    ghost still = { judged_still P.asked P.slots P.still };

    ghost fits = { judged_fits P.right P.asks P.slots P.left P.fits };

    ghost bears = { judged_bears P.right P.asks P.slots P.left P.bears };

    ghost goes_on = { judged_goes_on P.right P.asks P.asked P.fed P.slots P.left P.goes_on J.judges };
}
