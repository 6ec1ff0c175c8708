use cache_types::Answer;
use file_log::Reply;
use files_api::{Machine, Step};

/// An operation that makes no call: it gives its answer.
#[derive(Debug, Drop)]
pub struct Given {
    answer: Option<Answer>,
}

impl Given {
    ghost use Rattle.std.specs.Prelude.{◌≡◌, Some};

    /// It gives this answer. Takes no memory.
    pub fn new(answer: Answer) -> Given
        ensures { result ≡ record { answer = Some answer } }
    {
        Given {
            answer: Some(answer),
        }
    }
}

impl Machine for Given {
    ghost use Rattle.op_machine.specs.Given.{given_asks, given_asked, GivenFed, given_allowed, given_goes_on};
    ghost use Rattle.std.specs.Prelude.{false};

    ghost right = { λ m. Unit {0} };

    ghost asks = { given_asks };

    ghost asked = { given_asked };

    ghost fed = { GivenFed };

    ghost slots = { λ m at. false };

    ghost hurt = { λ m. false };

    ghost left = { λ m. 0 };

    fn next(&mut self) -> Step {
        match self.answer.take() {
            Some(answer) => Step::Done(answer),
            None => Step::Done(Answer::NoMemory),
        }
    }

    fn feed(&mut self, _reply: Reply) {}

    ghost allowed = { λ m right. given_allowed m };

    ghost goes_on = { λ m n reply right fed. given_goes_on m n reply fed };

    ghost stays = { λ m n call reply right asks answers fed. tt };
}
