ghost use Rattle.std.specs.Prelude.{◌≡◌};
ghost use Rattle.sim_world.specs.Played.{process_of};

use cache_types::{Bytes, Request, Text, Who};

/// One turn of a schedule. A turn that doesn't apply does nothing, and so does any turn of a process that
/// was stopped.
#[derive(Debug)]
pub enum Turn {
    /// A seat that is at nothing is given a request. One that isn't built yet, or a put with more than 64
    /// keys, doesn't apply.
    Start {
        who: Who,
        request: Request,
    },
    /// A seat that was given a request makes one item of the log: first the Begin of its request, last
    /// its End.
    Step {
        who: Who,
    },
    /// The seat's next call that is neither a Close nor a Tell fails, or with `memory` is refused memory.
    /// Of several that fall on one call the first counts.
    Fail {
        who: Who,
        memory: bool,
    },
    /// A put comes to the end of a process's queue, where fewer than 32 wait.
    Offer {
        process: u32,
        request: Request,
    },
    /// A seat that is at nothing is given the front job of its process's queue.
    Take {
        who: Who,
    },
    /// A process ends: its slots are empty and its locks free.
    Stop {
        process: u32,
    },
    /// A read-only database comes, unless one of its names is there.
    Install {
        root: u32,
        name: Text,
        main: Bytes,
        index: Bytes,
    },
    /// The list of read-only databases is set, or taken away.
    SetList {
        text: Option<Bytes>,
    },
    /// The clock is set.
    Clock {
        now: u64,
    },
    /// The turn of the outsider: what it does then it does by its own calls, so nothing is played.
    Own,
}

impl Drop for Turn {
    fn drop(self) {
        match self {
            Turn::Start {
                who: _,
                request: _request,
            } => {}
            Turn::Step { who: _ } => {}
            Turn::Fail { who: _, memory: _ } => {}
            Turn::Offer {
                process: _,
                request: _request,
            } => {}
            Turn::Take { who: _ } => {}
            Turn::Stop { process: _ } => {}
            Turn::Install {
                root: _,
                name: _name,
                main: _main,
                index: _index,
            } => {}
            Turn::SetList { text: _text } => {}
            Turn::Clock { now: _ } => {}
            Turn::Own => {}
        }
    }
}

impl Turn {
    /// The process whose seat or queue the turn is of.
    pub(crate) fn process(&self) -> Option<u32>
        ensures { result ≡ process_of self.now }
    {
        match self {
            Turn::Start { who, .. } => Some(who.process),
            Turn::Step { who } => Some(who.process),
            Turn::Fail { who, .. } => Some(who.process),
            Turn::Offer { process, .. } => Some(*process),
            Turn::Take { who } => Some(who.process),
            Turn::Stop { process } => Some(*process),
            _ => None,
        }
    }
}
