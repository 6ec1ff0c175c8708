ghost use Rattle.std.specs.Prelude.{◌≡◌, ◌<◌, IfOk, length};

use crate::draws::Draws;
use crate::requests::{get, put};
use cache_types::{NoMemory, Who};
use sim_world::Turn;
use std::alloc::Global;

/// How far a schedule is drawn: the numbers, which process is in each of the three places, and how many more
/// steps a seat makes in a row.
#[derive(Clone, Copy)]
struct Drawing {
    draws: Draws,
    processes: [u32; 3],
    stepping: Who,
    steps: u64,
}

impl Drawing {
    fn new(seed: u64) -> Drawing {
        Drawing {
            draws: Draws { state: seed },
            processes: [0, 1, 2],
            stepping: Who {
                process: 0,
                seat: 0,
            },
            steps: 0,
        }
    }

    /// One of the three places.
    fn place(&mut self) -> usize
        ensures { result < 3 }
    {
        self.draws.below(3) as usize
    }

    /// A seat: three times of four the first of its process, else the second.
    fn seat(&mut self) -> Who {
        let place = self.place();
        Who {
            process: self.processes[place],
            seat: (self.draws.below(4) / 3) as u32,
        }
    }

    /// The process of a place is stopped, and another takes its place.
    fn stop(&mut self) -> Turn {
        let place = self.place();
        let process = self.processes[place];
        self.processes[place] = process.wrapping_add(3);
        Turn::Stop { process }
    }

    /// A request for a seat: as often a put as a lookup.
    fn start(&mut self, alloc: Global) -> Result<Turn, NoMemory> {
        let who = self.seat();
        let request = if self.draws.below(2) == 0 {
            get(alloc, &mut self.draws)?
        } else {
            put(alloc, &mut self.draws)?
        };
        Ok(Turn::Start { who, request })
    }

    /// A put for a process's queue.
    fn offer(&mut self, alloc: Global) -> Result<Turn, NoMemory> {
        let place = self.place();
        let request = put(alloc, &mut self.draws)?;
        Ok(Turn::Offer {
            process: self.processes[place],
            request,
        })
    }

    /// A seat's step, and some more of it in a row: mostly a few, now and then those of a whole operation.
    fn step(&mut self) -> Turn {
        self.stepping = self.seat();
        let most = if self.draws.below(4) == 0 { 60 } else { 8 };
        self.steps = self.draws.below(most);
        Turn::Step { who: self.stepping }
    }

    /// The next turn.
    fn turn(&mut self, alloc: Global) -> Result<Turn, NoMemory> {
        if self.steps > 0 {
            self.steps -= 1;
            return Ok(Turn::Step { who: self.stepping });
        }
        match self.draws.below(100) {
            0..=19 => self.start(alloc),
            20..=22 => self.offer(alloc),
            23..=26 => Ok(Turn::Take { who: self.seat() }),
            27 => Ok(self.stop()),
            28..=29 => Ok(Turn::Fail {
                who: self.seat(),
                memory: self.draws.below(2) == 0,
            }),
            30 => Ok(Turn::Clock {
                now: self.draws.below(1_000),
            }),
            _ => Ok(self.step()),
        }
    }
}

/// So many turns, drawn from a seed.
///
/// They start lookups and puts of two keys for two drivers in two folder stores, queue puts and take them, step
/// a seat some times in a row, and now and then let a call fail, stop a process for good, whose place another
/// takes, or set the clock.
pub fn schedule(alloc: Global, seed: u64, count: usize) -> Result<Vec<Turn>, NoMemory>
    ensures { IfOk result (λ turns. length turns.items ≡ count) }
{
    let mut drawing = Drawing::new(seed);
    let mut turns = Vec::new(alloc);
    for made in 0..count {
        turns.push(drawing.turn(alloc)?)?;
    }
    Ok(turns)
}
