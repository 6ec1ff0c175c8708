use crate::crowd::log_among;
use cache_types::{Request, Who};
use file_log::LogItem;
use log_rows::copy_of;
use row_text::Wrong;
use sim_world::{Turn, play};
use std::alloc::Global;
use std::mem;

/// A schedule, what an own seat does meanwhile, and the log that comes of it.
#[derive(Drop)]
pub struct Scene {
    pub alloc: Global,
    /// The seat of one's own.
    pub me: Who,
    turns: Vec<Turn>,
    own: Vec<Request>,
    /// The log, maybe spoilt.
    pub log: Vec<LogItem>,
    /// The log as it was before it was spoilt, where it is spoilt.
    whole: Vec<LogItem>,
    spoilt: bool,
    /// Whether the log is that of the schedule.
    played: bool,
    /// The logs of the schedules that were drawn before in this case.
    pub earlier: Vec<Vec<LogItem>>,
}

impl Scene {
    pub fn new(alloc: Global) -> Scene {
        Scene {
            alloc,
            me: Who {
                process: 4_000_000_000,
                seat: 0,
            },
            turns: Vec::new(alloc),
            own: Vec::new(alloc),
            log: Vec::new(alloc),
            whole: Vec::new(alloc),
            spoilt: false,
            played: true,
            earlier: Vec::new(alloc),
        }
    }

    /// Adds a turn.
    pub fn add(&mut self, turn: Turn) -> Result<(), Wrong> {
        self.played = false;
        push_turn(&mut self.turns, turn)
    }

    /// Adds a turn of the own seat.
    pub fn act(&mut self, request: Request) -> Result<(), Wrong> {
        self.played = false;
        push_request(&mut self.own, request)
    }

    /// A new schedule begins on an empty disk. The log of the one before stays for what is counted of all.
    pub fn begin(&mut self) -> Result<(), Wrong> {
        self.settle()?;
        self.turns = Vec::new(self.alloc);
        self.own = Vec::new(self.alloc);
        let log = mem::replace(&mut self.log, Vec::new(self.alloc));
        push_log(&mut self.earlier, log)
    }

    /// Plays the schedule, if that isn't done yet.
    pub fn settle(&mut self) -> Result<(), Wrong> {
        if self.played {
            return Ok(());
        }
        self.log = self.made()?;
        self.played = true;
        self.spoilt = false;
        Ok(())
    }

    fn made(&mut self) -> Result<Vec<LogItem>, Wrong> {
        if self.own.is_empty() {
            return log_of(self.alloc, &self.turns);
        }
        let turns = mem::replace(&mut self.turns, Vec::new(self.alloc));
        log_among(self.alloc, self.me, turns, &self.own)
    }

    /// The log as it was played, to be spoilt.
    pub fn restore(&mut self) -> Result<(), Wrong> {
        self.settle()?;
        if self.spoilt {
            self.log = copy_of(self.alloc, &self.whole)?;
        } else {
            self.whole = copy_of(self.alloc, &self.log)?;
            self.spoilt = true;
        }
        Ok(())
    }
}

fn push_turn(turns: &mut Vec<Turn>, turn: Turn) -> Result<(), Wrong> {
    turns.push(turn)?;
    Ok(())
}

fn push_request(requests: &mut Vec<Request>, request: Request) -> Result<(), Wrong> {
    requests.push(request)?;
    Ok(())
}

fn push_log(logs: &mut Vec<Vec<LogItem>>, log: Vec<LogItem>) -> Result<(), Wrong> {
    if log.is_empty() {
        return Ok(());
    }
    logs.push(log)?;
    Ok(())
}

/// The log that a schedule comes to.
fn log_of(alloc: Global, turns: &[Turn]) -> Result<Vec<LogItem>, Wrong> {
    let world = play(alloc, turns)?;
    Ok(world.log()?)
}
