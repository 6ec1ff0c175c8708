ghost use Rattle.file_log.specs.Seat.{IsIdle};
ghost use Rattle.op_machine.specs.Requests.{IsBuilt};

use crate::built::is_built;
use cache_types::{Request, Who};
use file_log::LogItem;
use files_api::Files;
use op_union::{SeatState, run_op};
use row_text::Wrong;
use sim_files::SimFiles;
use sim_world::Turn;
use std::alloc::Global;

/// A seat among others that follow a schedule, between its operations.
#[derive(Drop)]
struct Crowd {
    files: SimFiles,
    ghost idle: { IsIdle (⟦<SimFiles as Files>⟧.seen files) },
}

impl Crowd {
    fn new(alloc: Global, me: Who, turns: Vec<Turn>) -> Result<Crowd, Wrong> {
        let files = SimFiles::new(alloc, me, turns)?;
        Ok(Crowd { files })
    }

    fn act(&mut self, alloc: Global, request: Request) {
        operate(alloc, &mut self.files, request);
    }

    fn log(&self) -> Result<Vec<LogItem>, Wrong> {
        Ok(self.files.world().log()?)
    }
}

/// Does a request, if it can be done today.
fn operate(alloc: Global, files: &mut SimFiles, request: Request)
    requires { IsIdle (⟦<SimFiles as Files>⟧.seen files.old) }
    ensures { IsIdle (⟦<SimFiles as Files>⟧.seen files.new) }
{
    if is_built(&request) {
        run(alloc, files, request);
    }
}

fn run(alloc: Global, files: &mut SimFiles, request: Request)
    requires idle { IsIdle (⟦<SimFiles as Files>⟧.seen files.old) }
    requires built { IsBuilt request }
    ensures { IsIdle (⟦<SimFiles as Files>⟧.seen files.new) }
{
    let mut state = SeatState::new();
    let _answer = run_op(alloc, files, &mut state, request);
}

fn act_each(alloc: Global, crowd: &mut Crowd, own: &[Request]) -> Result<(), Wrong> {
    for request in own {
        crowd.act(alloc, request.copy(alloc)?);
    }
    Ok(())
}

/// The log of a seat that does these requests while others follow the schedule.
pub fn log_among(
    alloc: Global,
    me: Who,
    turns: Vec<Turn>,
    own: &[Request],
) -> Result<Vec<LogItem>, Wrong> {
    let mut crowd = Crowd::new(alloc, me, turns)?;
    act_each(alloc, &mut crowd, own)?;
    crowd.log()
}
