ghost use Rattle.std.specs.Prelude.{◌≡◌, ◌<◌, ◌∷◌, ℕ, length, drop, option_map, nat_eq, if◌then◌else◌};
ghost use Rattle.std.specs.Vec.{vec_len, vec_capacity};
ghost use Rattle.sim_world.specs.Tables.{jobs_of, job_place, waiting_of, front, offered_to as the_offered};

use cache_types::Request;
use file_log::Ticket;

/// A job that waits in a process's queue.
#[derive(Debug, Drop)]
pub struct Job {
    pub process: u32,
    pub ticket: Ticket,
    pub request: Request,
}

/// How many jobs a process was offered so far.
#[derive(Clone, Copy, Debug, PartialEq, Eq)]
pub struct Offered {
    pub process: u32,
    pub count: u64,
}

/// How many jobs of a process wait.
pub fn count_of(jobs: &[Job], process: u32) -> usize
    ensures { result ≡ length (jobs_of process jobs.now) }
{
    let mut count: usize = 0;
    let mut rest = jobs;
    while let [first, tail @ ..] = rest {
        if process == first.process {
            count += 1;
        }
        rest = tail;
    }
    count
}

/// How many jobs stand before a process's front job, all where it has none.
fn place_of(jobs: &[Job], process: u32) -> usize
    ensures { result ≡ job_place process jobs.now }
{
    let mut place: usize = 0;
    let mut rest = jobs;
    while let [first, tail @ ..] = rest {
        if process == first.process {
            return place;
        }
        place += 1;
        rest = tail;
    }
    place
}

/// Takes the front job of a process out, if there is one.
pub fn take_front(jobs: &mut Vec<Job>, process: u32) -> Option<Job>
    ensures job { option_map waiting_of result ≡ front (jobs_of process jobs.old.items) }
    ensures rest { (p : ℕ) → jobs_of p jobs.new.items ≡ (if nat_eq p process then drop 1 (jobs_of p jobs.old.items) else jobs_of p jobs.old.items) }
{
    let place = place_of(jobs, process);
    if place < jobs.len() {
        let job = jobs.remove(place);
        return Some(job);
    }
    None
}

/// The ticket of a process's front job, if there is one.
pub fn front_ticket(jobs: &[Job], process: u32) -> Option<Ticket>
    ensures { result ≡ option_map (λ job. job.ticket) (front (jobs_of process jobs.now)) }
{
    let mut rest = jobs;
    while let [first, tail @ ..] = rest {
        if process == first.process {
            return Some(first.ticket);
        }
        rest = tail;
    }
    None
}

/// How many jobs a process was offered.
pub fn offered_to(offered: &[Offered], process: u32) -> u64
    ensures { result ≡ the_offered offered.now process }
{
    let mut rest = offered;
    while let [first, tail @ ..] = rest {
        if process == first.process {
            return first.count;
        }
        rest = tail;
    }
    0
}

/// Adds a process, in room that was left for it.
fn add(offered: &mut Vec<Offered>, entry: Offered)
    requires { vec_len offered.old < vec_capacity offered.old }
    ensures { offered.new.items ≡ entry ∷ offered.old.items }
{
    let _added = offered.insert(0, entry);
}

/// A process was offered so many jobs, in room that was left for that.
pub fn set_offered(offered: &mut Vec<Offered>, process: u32, count: u64)
    requires { vec_len offered.old < vec_capacity offered.old }
    ensures { (p : ℕ) → the_offered offered.new.items p ≡ (if nat_eq p process then count else the_offered offered.old.items p) }
{
    offered.retain(|other| process != other.process);
    add(offered, Offered { process, count });
}
