use crate::open::Open;
use crate::part::{After, Part};
use cache_types::Answer;
use file_log::{Call, Reply};
use files_api::{Machine, Step};
use std::mem;

/// A whole machine: a part that gives an answer, and then its end. After the answer, or after a call that failed or was
/// refused memory, what is open is closed, the lowest slot first but slot 0 last, and then the answer is given.
///
/// It ends in `FilesFault` where a call failed, and in `NoMemory` where one was refused memory.
#[derive(Debug, Drop)]
pub enum Whole<P> {
    /// The part goes on.
    Going(P),
    /// These slots are open, and are closed; this is the answer.
    Closing(Open, Answer),
    /// The answer was given.
    Spent,
}

impl<P: Part<Out = Answer> + Drop> Machine for Whole<P> {
    ghost use Rattle.machine_parts.specs.Ending.{whole_right, whole_asks, whole_asked, WholeFed, whole_slots, whole_hurt, whole_left};
    ghost use Rattle.machine_parts.specs.EndingLaws.{whole_allowed, whole_goes_on, whole_stays};

    ghost right = { whole_right P.right };

    ghost asks = { whole_asks P.asks };

    ghost asked = { whole_asked P.asked };

    ghost fed = { WholeFed P.fed P.slots };

    ghost slots = { whole_slots P.slots };

    ghost hurt = { whole_hurt };

    ghost left = { whole_left P.left };

    fn next(&mut self) -> Step {
        match mem::replace(self, Whole::Spent) {
            Whole::Going(part) => {
                let mut part = part;
                let call = part.next();
                *self = Whole::Going(part);
                Step::Ask(call)
            }
            Whole::Closing(slots, answer) => match slots.lowest() {
                Some(slot) => {
                    *self = Whole::Closing(slots, answer);
                    Step::Ask(Call::Close { slot })
                }
                None => Step::Done(answer),
            },
            Whole::Spent => Step::Done(Answer::NoMemory),
        }
    }

    fn feed(&mut self, reply: Reply) {
        match mem::replace(self, Whole::Spent) {
            Whole::Going(part) => match reply {
                Reply::Failed => *self = Whole::Closing(part.slots(), Answer::FilesFault),
                Reply::NoMemory => *self = Whole::Closing(part.slots(), Answer::NoMemory),
                reply => match part.feed(reply) {
                    After::More(part) => *self = Whole::Going(part),
                    After::Over(slots, answer) => *self = Whole::Closing(slots, answer),
                },
            },
            Whole::Closing(slots, answer) => *self = Whole::Closing(slots.closed(), answer),
            Whole::Spent => {}
        }
    }

    ghost allowed = { whole_allowed P.right P.asks P.slots P.left P.fits };

    ghost goes_on = { whole_goes_on P.right P.asks P.asked P.fed P.slots P.left P.still P.bears P.goes_on };

    ghost stays = { whole_stays P.right P.asks P.asked P.fed P.slots P.left P.goes_on };
}
