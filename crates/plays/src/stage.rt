use crate::counts::{all, has, item};
use crate::disk::{file, gives};
use crate::scene::Scene;
use crate::verdicts::{ends, spoil_more, spoil_whole, verdict};
use crate::{hand, machine, turns};
use memory_files::MemFiles;
use op_machine::Op;
use row_text::{Round, Sentence, Stage, Wrong};

/// What the rows of a case have come to in a round.
#[derive(Drop)]
pub struct Plays {
    round: Round,
    scene: Scene,
    files: MemFiles,
    machine: Option<Op>,
}

impl Stage for Plays {
    fn begin(rt: &HostRuntime, number: u64) -> Result<Plays, Wrong> {
        let files = hand::first(rt.alloc())?;
        Ok(Plays {
            round: Round::of(number),
            scene: Scene::new(rt.alloc()),
            files,
            machine: None,
        })
    }

    fn act(&mut self, verb: &str, row: &mut Sentence) -> Result<(), Wrong> {
        let round = self.round.number;
        match verb {
            "rounds" => rounds(&mut self.round, row),
            "files" | "call" | "fault" | "time" | "halt" | "made" | "there" => {
                by_hand(&mut self.files, verb, row, round)
            }
            "machine" => machine::begin(&mut self.machine, row),
            "asks" => machine::asks(&mut self.machine, row),
            "done" => machine::done(&mut self.machine, row),
            _ => in_scene(&mut self.scene, verb, row, round),
        }
    }

    fn round(&self) -> Round {
        self.round
    }
}

/// `rounds N`: the rows are played once for each number from 0 to N.
fn rounds(round: &mut Round, row: &mut Sentence) -> Result<(), Wrong> {
    round.last = row.number()?;
    Ok(())
}

fn by_hand(files: &mut MemFiles, verb: &str, row: &mut Sentence, round: u64) -> Result<(), Wrong> {
    match verb {
        "files" => hand::begin(files, row),
        "call" => hand::call(files, row),
        "fault" => hand::fault(files, row, round),
        "time" => hand::time(files, row),
        "halt" => hand::halt(files, row, round),
        "made" => hand::made_items(files, row),
        _ => hand::there(files, row),
    }
}

/// What a row says of a schedule.
fn in_scene(scene: &mut Scene, verb: &str, row: &mut Sentence, round: u64) -> Result<(), Wrong> {
    match verb {
        "seat" => turns::start(scene, row),
        "step" => turns::step(scene, row, round),
        "fail" => turns::fail(scene, row),
        "stop" => turns::stop(scene, row),
        "offer" => turns::offer(scene, row),
        "take" => turns::take(scene, row),
        "own" => turns::own(scene, row),
        "pass" => turns::pass(scene, row, round),
        "drawn" => turns::drawn(scene, row),
        "mixed" => turns::mixed(scene, row),
        "told" => turns::told(scene, row, round),
        "clock" => turns::clock(scene, row),
        "install" => turns::install(scene, row),
        "list" => turns::list(scene, row),
        _ => of_log(scene, verb, row),
    }
}

/// What a row says of what came of a schedule.
fn of_log(scene: &mut Scene, verb: &str, row: &mut Sentence) -> Result<(), Wrong> {
    match verb {
        "ends" => ends(scene, row),
        "verdict" => verdict(scene, row),
        "has" => has(scene, row),
        "all" => all(scene, row),
        "item" => item(scene, row),
        "file" => file(scene, row),
        "gives" => gives(scene, row),
        "spoil" => spoil_whole(scene, row),
        "also" => spoil_more(scene, row),
        _ => Err(Wrong::Found(format!(in row.alloc(); "no row begins with '{verb}'")?)),
    }
}
