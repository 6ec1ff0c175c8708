//! Draws a schedule of so many turns from a seed, plays it, and judges its log: `log_bench TURNS SEED` prints the
//! number of items and the verdict. With a third word `play` the log isn't judged, so that the two times can be
//! told apart. It prints no times: `bench/check_log.sh` takes them.
#![tactic(auto)]

use cache_types::NoMemory;
use file_log::LogItem;
use schedule_draws::schedule;
use sim_world::play;
use std::env;
use std::process::ExitCode;
use world_log::{Verdict, check_log};

/// What the words ask for.
#[derive(Clone, Copy)]
struct Task {
    turns: usize,
    seed: u64,
    judges: bool,
}

/// The words after the program's name, read; `None` where they have another form.
fn task_of(rt: &HostRuntime) -> Option<Task> {
    let args = env::args(rt).ok()?;
    let mut words = args.skip(1);
    let turns = words.next()?.as_str().parse().ok()?;
    let seed = words.next()?.as_str().parse().ok()?;
    let judges = match words.next() {
        None => true,
        Some(word) if word.as_str() == "play" => false,
        Some(_) => return None,
    };
    Some(Task {
        turns,
        seed,
        judges,
    })
}

/// The log of a drawn schedule.
fn log_of(rt: &HostRuntime, task: Task) -> Result<Vec<LogItem>, NoMemory> {
    let turns = schedule(rt.alloc(), task.seed, task.turns)?;
    play(rt.alloc(), &turns)?.log()
}

/// Prints what the log is found to be.
fn judge(rt: &HostRuntime, log: &[LogItem]) -> Result<(), NoMemory> {
    let printed = match check_log(rt.alloc(), log)? {
        Verdict::Good => println!(rt; "verdict good"),
        Verdict::IllegalAt(place) => println!(rt; "verdict illegal {place}"),
        Verdict::BrokenAt(place) => println!(rt; "verdict broken {place}"),
    };
    printed.map_err(|_| NoMemory)
}

/// Does what the words ask for.
fn bench(rt: &HostRuntime, task: Task) -> Result<(), NoMemory> {
    let log = log_of(rt, task)?;
    let items = log.len();
    println!(rt; "items {items}").map_err(|_| NoMemory)?;
    if task.judges {
        judge(rt, &log)?;
    }
    Ok(())
}

fn main(rt: HostRuntime) -> ExitCode {
    let Some(task) = task_of(&rt) else {
        return ExitCode::from(2);
    };
    match bench(&rt, task) {
        Ok(()) => ExitCode::SUCCESS,
        Err(_) => ExitCode::FAILURE,
    }
}
