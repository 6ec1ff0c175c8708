ghost use Rattle.std.specs.Prelude.{◌≡◌, ◌<◌, None, IsSome, is_none, nat_eq, false, if◌then◌else◌};
ghost use Rattle.std.specs.Vec.{vec_len, vec_capacity};
ghost use Rattle.cache_types.specs.Seats.{same_seat};
ghost use Rattle.cache_types.specs.declared.seat.Who.{Who};
ghost use Rattle.file_log.specs.State.{state_of};
ghost use Rattle.sim_world.specs.Steps.{Advances, MayAdvance};
ghost use Rattle.sim_world.specs.Tables.{task_of, place_in, Once, seats_with};

use crate::operation::{Moved, Operation, step_asked};
use cache_types::{Request, Who};
use file_model::World;

/// What a busy seat is at.
#[derive(Debug)]
pub enum Task {
    /// It was given a request, which it hasn't begun.
    Asked(Request),
    /// Its operation is open.
    Begun(Operation),
}

impl Drop for Task {
    fn drop(self) {
        match self {
            Task::Asked(_asked) => {}
            Task::Begun(_begun) => {}
        }
    }
}

impl Task {
    /// Makes the next item of a busy seat, for whose next call a failure may wait.
    pub fn advance(self, world: &mut World, who: Who, failing: Option<bool>) -> Moved
        requires may { MayAdvance who self world.old }
        requires goes_on { (state_of world.old.past).halted who.process ≡ false }
        ensures { Advances who self failing world.old world.new result }
    {
        match self {
            Task::Asked(request) => step_asked(world, who, request),
            Task::Begun(operation) => operation.step(world, who, failing),
        }
    }
}

/// A busy seat.
#[derive(Debug, Drop)]
pub struct Seat {
    pub who: Who,
    pub task: Task,
}

/// How many seats stand before this one, all where it is at nothing.
fn place_of(seats: &[Seat], who: Who) -> usize
    ensures { result ≡ place_in who seats.now }
{
    let mut place: usize = 0;
    let mut rest = seats;
    while let [first, tail @ ..] = rest {
        if who.is(first.who) {
            return place;
        }
        place += 1;
        rest = tail;
    }
    place
}

/// Whether a seat is at nothing.
pub fn is_idle(seats: &[Seat], who: Who) -> bool
    ensures { result ≡ is_none (task_of seats.now who) }
{
    let mut rest = seats;
    while let [first, tail @ ..] = rest {
        if who.is(first.who) {
            return false;
        }
        rest = tail;
    }
    true
}

/// Takes a seat's task out, if it is at one. The room that it had is left.
pub fn take_out(seats: &mut Vec<Seat>, who: Who) -> Option<Task>
    requires { Once seats.old.items }
    ensures task { result ≡ task_of seats.old.items who }
    ensures others { (w : Who) → task_of seats.new.items w ≡ (if same_seat w who then None else task_of seats.old.items w) }
    ensures once { Once seats.new.items }
    ensures room { IsSome result → vec_len seats.new < vec_capacity seats.new }
{
    let place = place_of(seats, who);
    if place < seats.len() {
        let seat = seats.remove(place);
        return Some(seat.task);
    }
    None
}

/// Puts a seat's task in, if there is one, in room that was left for it.
pub fn put_in(seats: &mut Vec<Seat>, who: Who, task: Option<Task>)
    requires room { vec_len seats.old < vec_capacity seats.old }
    ensures { seats.new.items ≡ seats_with who task seats.old.items }
{
    if let Some(task) = task {
        let _added = seats.insert(0, Seat { who, task });
    }
}

/// No seat of the process is at anything.
pub fn forget_all(seats: &mut Vec<Seat>, process: u32)
    requires { Once seats.old.items }
    ensures seats { (w : Who) → task_of seats.new.items w ≡ (if nat_eq w.process process then None else task_of seats.old.items w) }
    ensures once { Once seats.new.items }
{
    seats.retain(|seat| seat.who.process != process);
}
