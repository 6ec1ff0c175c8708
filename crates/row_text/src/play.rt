use crate::book::Row;
use crate::sentence::Sentence;
use crate::stage::Stage;
use crate::word::{Short, words_of};
use crate::wrong::Wrong;

/// A row that doesn't hold, in a round of its case.
#[derive(Drop)]
pub struct Failed {
    pub place: usize,
    pub round: u64,
    pub wrong: Wrong,
}

/// Plays the rows of a case, once or for each round, up to the first row that doesn't hold. It gives the number of
/// the last round.
pub fn play<S: Stage>(rt: &HostRuntime, rows: &[Row], shorts: &[Short]) -> Result<u64, Failed> {
    for number in 0..u64::MAX {
        let last = play_round::<S>(rt, rows, shorts, number)?;
        if number >= last {
            return Ok(number);
        }
    }
    Ok(u64::MAX)
}

fn play_round<S: Stage>(
    rt: &HostRuntime,
    rows: &[Row],
    shorts: &[Short],
    number: u64,
) -> Result<u64, Failed> {
    let mut stage = begin::<S>(rt, number)?;
    play_rows(rt, &mut stage, rows, shorts)?;
    Ok(stage.round().last)
}

fn begin<S: Stage>(rt: &HostRuntime, number: u64) -> Result<S, Failed> {
    match S::begin(rt, number) {
        Ok(stage) => Ok(stage),
        Err(wrong) => Err(Failed {
            place: 0,
            round: number,
            wrong,
        }),
    }
}

fn play_rows<S: Stage>(
    rt: &HostRuntime,
    stage: &mut S,
    rows: &[Row],
    shorts: &[Short],
) -> Result<(), Failed> {
    for (place, row) in rows.iter().enumerate() {
        let round = stage.round();
        if round.over {
            return Ok(());
        }
        if let Err(wrong) = play_row(rt, stage, row.text.as_str(), shorts) {
            let round = round.number;
            return Err(Failed {
                place,
                round,
                wrong,
            });
        }
    }
    Ok(())
}

fn play_row<S: Stage>(
    rt: &HostRuntime,
    stage: &mut S,
    text: &str,
    shorts: &[Short],
) -> Result<(), Wrong> {
    let alloc = rt.alloc();
    let mut row = Sentence::of(alloc, words_of(alloc, text, shorts)?)?;
    if !is_in_round(&mut row, stage.round().number)? {
        return Ok(());
    }
    let verb = row.text()?;
    stage.act(verb.as_str(), &mut row)?;
    row.end()
}

/// Whether a row is for this round: `until N` or `from N` may stand before it.
fn is_in_round(row: &mut Sentence, number: u64) -> Result<bool, Wrong> {
    if row.takes("until") {
        return Ok(number <= row.number()?);
    }
    if row.takes("from") {
        return Ok(number >= row.number()?);
    }
    Ok(true)
}
