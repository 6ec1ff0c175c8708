use crate::{
    databases, drivers, indexes, items, keys, names, remembered, reports, sums, variables, words,
};
use row_text::{Round, Sentence, Stage, Wrong};
use std::alloc::Global;

/// What rows are played on: nothing is kept from a row to the next.
#[derive(Drop)]
pub struct TableStage {
    alloc: Global,
    round: Round,
}

impl Stage for TableStage {
    fn begin(rt: &HostRuntime, number: u64) -> Result<Self, Wrong> {
        Ok(TableStage {
            alloc: rt.alloc(),
            round: Round::of(number),
        })
    }

    fn act(&mut self, verb: &str, row: &mut Sentence) -> Result<(), Wrong> {
        match verb {
            "driver" => drivers::driver(row),
            "front" => drivers::front(row),
            "item" => items::item(row),
            "crc" => sums::crc(row),
            "number" => words::number(row),
            "words" => words::words(row),
            "status" => reports::status(row),
            "answer" => reports::answer(row),
            "word" => reports::word(row),
            verb => other(self.alloc, verb, row),
        }
    }

    fn round(&self) -> Round {
        self.round
    }
}

/// The rows on keys, names and settings.
fn other(alloc: Global, verb: &str, row: &mut Sentence) -> Result<(), Wrong> {
    match verb {
        "key" => keys::key(row),
        "digits" => keys::digits(row),
        "sum" => keys::sum(row),
        "path" => names::path(row),
        "name" => names::name(row),
        "size" => variables::size(row),
        "names" => variables::names(row),
        "list" => variables::list(row),
        "variable" => variables::variable(row),
        "variables" => variables::variables(row),
        "settings" => variables::printed(row),
        verb => of_database(alloc, verb, row),
    }
}

/// The rows on databases.
fn of_database(alloc: Global, verb: &str, row: &mut Sentence) -> Result<(), Wrong> {
    match verb {
        "head" => databases::head(row),
        "entry" => databases::entry(row),
        "row" => databases::index_row(row),
        "hash" => databases::hash(row),
        "index" => indexes::index(row),
        "main" => indexes::main(row),
        "entries" => indexes::entries(row),
        "remembered" => remembered::remembered(row),
        _ => Err(Wrong::Found(format!(in alloc; "no row begins with '{verb}'")?)),
    }
}
