//! Each call of a plain table and of a pooled one, asked what worked examples have.

ghost use Rattle.stick_model.specs.Limits.{IsTableEvent};

use crate::calls::{Answer, Answers, based, open, redo_run, run_all, step_and_redo, step_twice};
use crate::worked::{EACH_EVENT, END_OF_LIFE, Example, NO_TICKET, Told, event_of, is_answer, spec};
use base_sequence::NoMemory;
use std::alloc::Global;
use std::test::Fail;
use stick_pooled::StickTable;
use stick_table::{Event, PlainTable, Refusal, Reply, Stored, Table, Ticket};

/// How a table is asked: for two replies at once, or for one, and a plain copy of what it was for the same call made again.
#[derive(Clone, Copy)]
enum Way {
    Twice,
    Again,
}

/// Two answers to an event.
fn ask<T: Table>(table: &mut T, way: Way, event: Event) -> Answers
    requires { IsTableEvent event }
{
    match way {
        Way::Twice => step_twice(table, &event),
        Way::Again => step_and_redo(table, event),
    }
}

/// The ticket that was told last.
fn last_ticket(before: Ticket, answer: &Answer) -> Ticket {
    match answer {
        Ok(Reply::Tracked { ticket, .. }) => *ticket,
        _ => before,
    }
}

/// The ticket that was told last, where both answers tell a row.
fn next_ticket(answers: &Answers, row: &Told, ticket: Ticket) -> Option<Ticket> {
    if is_answer(&answers.0, row.2) && is_answer(&answers.1, row.2) {
        Some(last_ticket(ticket, &answers.0))
    } else {
        None
    }
}

/// The same, where what is asked in a row is answered so.
fn told_next<T: Table>(
    alloc: Global,
    table: &mut T,
    way: Way,
    row: &Told,
    ticket: Ticket,
) -> Option<Ticket> {
    match event_of(alloc, row, ticket) {
        Ok(event) => next_ticket(&ask(table, way, event), row, ticket),
        Err(_) => None,
    }
}

/// The place of the first row of an example that a table doesn't tell so.
fn untold<T: Table>(alloc: Global, table: &mut T, way: Way, rows: &[Told]) -> Option<usize> {
    let mut last = NO_TICKET;
    for (place, row) in rows.iter().enumerate() {
        match told_next(alloc, table, way, row, last) {
            Some(ticket) => last = ticket,
            None => return Some(place),
        }
    }
    None
}

/// The same, of an empty table.
fn untold_by<T: Table>(
    alloc: Global,
    way: Way,
    example: &Example,
) -> Result<Option<usize>, NoMemory> {
    let mut table: T = open(alloc, spec(alloc, example)?)?;
    Ok(untold(alloc, &mut table, way, example.rows))
}

#[test]
fn worked_examples_are_told(rt: HostRuntime) -> Result<(), Fail> {
    for example in [&EACH_EVENT, &END_OF_LIFE] {
        for way in [Way::Twice, Way::Again] {
            assert_eq!(rt; untold_by::<PlainTable>(rt.alloc(), way, example)?, None);
            assert_eq!(rt; untold_by::<StickTable>(rt.alloc(), way, example)?, None);
        }
    }
    Ok(())
}

/// Whether a run of two events is answered, its table counts them at its base, and a run past the life of the table is refused.
fn runs<T: Table>(alloc: Global) -> Result<bool, NoMemory> {
    let mut table: T = open(alloc, spec(alloc, &END_OF_LIFE)?)?;
    let events = [Event::Expire(0), Event::Expire(0)];
    let first = run_all(alloc, &mut table, &events);
    let based = based(&mut table)?;
    let second = run_all(alloc, &mut table, &events);
    let third = run_all(alloc, &mut table, &events);
    let is_refused = third == Err(Refusal::Exhausted);
    Ok(based == [2, 2] && first == Ok(2) && second == Ok(2) && is_refused)
}

/// Whether a stored call that is made again is answered.
fn redoes(alloc: Global) -> Result<bool, NoMemory> {
    let mut table: PlainTable = open(alloc, spec(alloc, &EACH_EVENT)?)?;
    let calls = [Stored {
        event: Event::Expire(5),
        slot: None,
    }];
    Ok(redo_run(alloc, &mut table, &calls) == Ok(1))
}

#[test]
fn runs_are_answered(rt: HostRuntime) -> Result<(), Fail> {
    assert!(rt; runs::<PlainTable>(rt.alloc())? && runs::<StickTable>(rt.alloc())?);
    assert!(rt; redoes(rt.alloc())?);
    Ok(())
}
