use crate::built::is_built;
use cache_types::Request;
use files_api::{Machine, Step};
use log_text::{answer_of, answer_text, call_of, call_text, reply_of, request_of};
use op_machine::Op;
use row_text::{Sentence, Wrong, same};
use std::alloc::Global;

/// `machine REQUEST`: the machine of a request, which has done nothing yet
pub fn begin(slot: &mut Option<Op>, row: &mut Sentence) -> Result<(), Wrong> {
    let request = request_of(row)?;
    *slot = Some(machine_of(row.alloc(), &request)?);
    Ok(())
}

fn machine_of(alloc: Global, request: &Request) -> Result<Op, Wrong> {
    if !is_built(request) {
        return Err(Wrong::of(alloc, "no machine does this"));
    }
    Ok(Op::new(alloc, request)?)
}

fn of_slot(alloc: Global, slot: &mut Option<Op>) -> Result<&mut Op, Wrong> {
    match slot {
        Some(op) => Ok(op),
        None => Err(Wrong::of(alloc, "a machine is wanted before this")),
    }
}

/// `asks CALL fed REPLY`
pub fn asks(slot: &mut Option<Op>, row: &mut Sentence) -> Result<(), Wrong> {
    let op = of_slot(row.alloc(), slot)?;
    let got = next_text(row.alloc(), op)?;
    let wanted = wanted_call(row)?;
    same(
        row.alloc(),
        wanted.as_str().as_bytes(),
        got.as_str().as_bytes(),
    )?;
    feed(op, row)
}

fn feed(op: &mut Op, row: &mut Sentence) -> Result<(), Wrong> {
    row.wants("fed")?;
    let reply = reply_of(row)?;
    op.feed(reply);
    Ok(())
}

/// What the machine wants next, in words.
fn next_text(alloc: Global, op: &mut Op) -> Result<String, Wrong> {
    let step = op.next();
    match &step {
        Step::Ask(call) => call_text(alloc, call),
        Step::Done(answer) => answer_text(alloc, answer),
    }
}

fn wanted_call(row: &mut Sentence) -> Result<String, Wrong> {
    let call = call_of(row)?;
    call_text(row.alloc(), &call)
}

/// `done ANSWER`
pub fn done(slot: &mut Option<Op>, row: &mut Sentence) -> Result<(), Wrong> {
    let op = of_slot(row.alloc(), slot)?;
    let got = next_text(row.alloc(), op)?;
    let wanted = wanted_answer(row)?;
    same(
        row.alloc(),
        wanted.as_str().as_bytes(),
        got.as_str().as_bytes(),
    )
}

fn wanted_answer(row: &mut Sentence) -> Result<String, Wrong> {
    let answer = answer_of(row)?;
    answer_text(row.alloc(), &answer)
}
