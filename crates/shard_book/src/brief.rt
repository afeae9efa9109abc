//! How a call lies in a record: `Recorded` has one, and `Book::call` makes it before its table answers.

ghost use Rattle.std.specs.Prelude.{◌≡◌, ◌↔◌, ◌∷◌, [], false, length, IsTrue, IfOk, IfSome, IsSome};
ghost use Rattle.shard_book.specs.BookState.{may_grow};
ghost use Rattle.stick_model.specs.declared.events.Event.TheVariants.{ClearWhere};
ghost use Rattle.shard_book.specs.Briefs.{IsBrief, IsBriefFilter, IsBriefKey, MayTell, call_in, unanswered, with_slot};

use crate::short::Short;
use base_sequence::NoMemory;
use std::alloc::Global;
use stick_model::same_event;
use stick_table::{Cell, Cells, Event, Filter, Op, Ticket};
use stored_data::{Act, Field};

/// A call in 48 bytes, with a key of up to sixteen bytes, a pair of a `Put` that has but one, and a clear of all or by a value. Any other
/// event has memory of its own. The fields lie in this order, small ones first, as they then need no room between them.
#[derive(Drop)]
pub(crate) enum Brief {
    Get {
        key: Short,
        seat: u32,
        now: u64,
    },
    Track {
        key: Short,
        seat: u32,
        slot: Option<u32>,
        now: u64,
    },
    Look {
        seat: u32,
        ticket: Ticket,
        now: u64,
    },
    Count {
        seat: u32,
        ticket: Ticket,
        now: u64,
        act: Act,
    },
    Release {
        seat: u32,
        ticket: Ticket,
        now: u64,
    },
    Put {
        key: Short,
        seat: u32,
        cell: Cell,
        now: u64,
    },
    Clear {
        key: Short,
        seat: u32,
        now: u64,
    },
    ClearAll {
        seat: u32,
        now: u64,
    },
    ClearBy {
        seat: u32,
        field: Field,
        op: Op,
        bound: u64,
        now: u64,
    },
    Expire {
        seat: u32,
        now: u64,
    },
    Whole {
        seat: u32,
        slot: Option<u32>,
        event: Box<Event>,
    },
}

/// The only pair, if there is but one.
fn only_cell(cells: &[Cell]) -> Option<Cell>
    ensures cell { IfSome result (λ cell. cells.now ≡ cell ∷ []) }
    ensures only { length cells.now ≡ 1 → IsSome result }
{
    match cells {
        [cell] => Some(*cell),
        _ => None,
    }
}

/// Whether the pairs are these.
fn are_same(cells: &[Cell], others: &[Cell]) -> bool
    ensures { IsTrue result ↔ (cells.now ≡ others.now) }
{
    cells == others
}

impl Brief {
    /// A seat's call of an event that isn't answered yet, if it takes no memory of its own. That of a release takes none.
    pub(crate) fn of(seat: u32, event: &Event) -> Option<Brief>
        ensures call { IfSome result (λ brief. call_in brief ≡ unanswered seat event.now) }
        ensures brief { IsBrief event.now → IsSome result }
        ensures release { may_grow event.now ≡ false → IsSome result }
    {
        match event {
            Event::Look(now, ticket) => Some(Brief::Look {
                seat,
                ticket: *ticket,
                now: *now,
            }),
            Event::Count(now, ticket, act) => Some(Brief::Count {
                seat,
                ticket: *ticket,
                now: *now,
                act: *act,
            }),
            Event::Release(now, ticket) => Some(Brief::Release {
                seat,
                ticket: *ticket,
                now: *now,
            }),
            Event::Expire(now) => Some(Brief::Expire { seat, now: *now }),
            Event::ClearWhere(now, filter) => Brief::of_filter(seat, *now, filter),
            _ => Brief::of_key(seat, event),
        }
    }

    /// The same of a clear by a filter.
    fn of_filter(seat: u32, now: u64, filter: &Filter) -> Option<Brief>
        ensures call { IfSome result (λ brief. call_in brief ≡ unanswered seat (ClearWhere now filter.now)) }
        ensures brief { IsBriefFilter filter.now → IsSome result }
    {
        match filter {
            Filter::Everything => Some(Brief::ClearAll { seat, now }),
            Filter::Compare(field, op, bound) => Some(Brief::ClearBy {
                seat,
                field: *field,
                op: *op,
                bound: *bound,
                now,
            }),
            _ => None,
        }
    }

    /// The same of an event of a key.
    fn of_key(seat: u32, event: &Event) -> Option<Brief>
        ensures call { IfSome result (λ brief. call_in brief ≡ unanswered seat event.now) }
        ensures brief { IsBriefKey event.now → IsSome result }
    {
        match event {
            Event::Get(now, key) => Some(Brief::Get {
                key: Short::of(key)?,
                seat,
                now: *now,
            }),
            Event::Track(now, key) => Some(Brief::Track {
                key: Short::of(key)?,
                seat,
                slot: None,
                now: *now,
            }),
            Event::Put(now, key, cells) => Some(Brief::Put {
                key: Short::of(key)?,
                seat,
                cell: only_cell(cells.as_slice())?,
                now: *now,
            }),
            Event::Clear(now, key) => Some(Brief::Clear {
                key: Short::of(key)?,
                seat,
                now: *now,
            }),
            _ => None,
        }
    }

    /// A seat's call of any event that isn't answered yet, in memory of its own.
    pub(crate) fn whole(alloc: Global, seat: u32, event: &Event) -> Result<Brief, NoMemory>
        ensures { IfOk result (λ brief. call_in brief ≡ unanswered seat event.now) }
    {
        match Box::new(alloc, event.copy()?) {
            Ok(event) => Ok(Brief::Whole {
                seat,
                slot: None,
                event,
            }),
            Err(_) => Err(NoMemory),
        }
    }

    /// The call with the slot that its reply tells.
    pub(crate) fn with_slot(self, slot: Option<u32>) -> Brief
        requires { MayTell (call_in self) slot }
        ensures { call_in result ≡ with_slot slot (call_in self) }
    {
        match self {
            Brief::Track {
                key,
                seat,
                slot: _,
                now,
            } => Brief::Track {
                key,
                seat,
                slot,
                now,
            },
            Brief::Whole {
                seat,
                slot: _,
                event,
            } => Brief::Whole { seat, slot, event },
            other => other,
        }
    }

    /// The seat that made it.
    pub(crate) fn seat(&self) -> u32
        ensures { result ≡ (call_in self.now).seat }
    {
        match self {
            Brief::Get { seat, .. } => *seat,
            Brief::Track { seat, .. } => *seat,
            Brief::Look { seat, .. } => *seat,
            Brief::Count { seat, .. } => *seat,
            Brief::Release { seat, .. } => *seat,
            Brief::Put { seat, .. } => *seat,
            Brief::Clear { seat, .. } => *seat,
            Brief::ClearAll { seat, .. } => *seat,
            Brief::ClearBy { seat, .. } => *seat,
            Brief::Expire { seat, .. } => *seat,
            Brief::Whole { seat, .. } => *seat,
        }
    }

    /// The slot that its reply told.
    pub(crate) fn slot(&self) -> Option<u32>
        ensures { result ≡ (call_in self.now).stored.slot }
    {
        match self {
            Brief::Track { slot, .. } => *slot,
            Brief::Whole { slot, .. } => *slot,
            _ => None,
        }
    }

    /// Its event, made anew.
    pub(crate) fn event(&self, alloc: Global) -> Result<Event, NoMemory>
        ensures { IfOk result (λ event. event ≡ (call_in self.now).stored.event) }
    {
        match self {
            Brief::Get { key, now, .. } => Ok(Event::Get(*now, key.key(alloc))),
            Brief::Track { key, now, .. } => Ok(Event::Track(*now, key.key(alloc))),
            Brief::Look { ticket, now, .. } => Ok(Event::Look(*now, *ticket)),
            Brief::Count {
                ticket,
                now,
                act,
                ..
            } => Ok(Event::Count(*now, *ticket, *act)),
            Brief::Release { ticket, now, .. } => Ok(Event::Release(*now, *ticket)),
            Brief::Put { key, cell, now, .. } => {
                let cells = Cells::from_slice(alloc, &[*cell])?;
                Ok(Event::Put(*now, key.key(alloc), cells))
            }
            Brief::Clear { key, now, .. } => Ok(Event::Clear(*now, key.key(alloc))),
            Brief::ClearAll { now, .. } => Ok(Event::ClearWhere(*now, Filter::Everything)),
            Brief::ClearBy {
                field,
                op,
                bound,
                now,
                ..
            } => Ok(Event::ClearWhere(*now, Filter::Compare(*field, *op, *bound))),
            Brief::Expire { now, .. } => Ok(Event::Expire(*now)),
            Brief::Whole { event, .. } => Ok(event.copy()?),
        }
    }

    /// Whether that is its event.
    pub(crate) fn asks(&self, event: &Event) -> bool
        ensures { IsTrue result ↔ (event.now ≡ (call_in self.now).stored.event) }
    {
        match (self, event) {
            (Brief::Get { key, now, .. }, Event::Get(moment, asked)) => {
                moment == now && key.is(asked)
            }
            (Brief::Track { key, now, .. }, Event::Track(moment, asked)) => {
                moment == now && key.is(asked)
            }
            (Brief::Look { ticket, now, .. }, Event::Look(moment, asked)) => {
                moment == now && asked == ticket
            }
            (
                Brief::Count {
                    ticket,
                    now,
                    act,
                    ..
                },
                Event::Count(moment, asked, done),
            ) => moment == now && asked == ticket && done == act,
            (Brief::Release { ticket, now, .. }, Event::Release(moment, asked)) => {
                moment == now && asked == ticket
            }
            (Brief::Put { key, cell, now, .. }, Event::Put(moment, asked, cells)) => {
                moment == now && key.is(asked) && are_same(cells.as_slice(), &[*cell])
            }
            (Brief::Clear { key, now, .. }, Event::Clear(moment, asked)) => {
                moment == now && key.is(asked)
            }
            (Brief::ClearAll { now, .. }, Event::ClearWhere(moment, Filter::Everything)) => {
                moment == now
            }
            (
                Brief::ClearBy {
                    field,
                    op,
                    bound,
                    now,
                    ..
                },
                Event::ClearWhere(moment, Filter::Compare(asked, how, limit)),
            ) => moment == now && asked == field && how == op && limit == bound,
            (Brief::Expire { now, .. }, Event::Expire(moment)) => moment == now,
            (Brief::Whole { event: kept, .. }, _) => same_event(event, kept),
            _ => false,
        }
    }
}
