//! How a table ended, as it is printed: what was counted of it, or what it lacks; `ending` settles it and prints this.

ghost use Rattle.std.specs.Prelude.{◌≡◌, ◌-◌, ◌^◌, List, length, min, sum, sum_by};
ghost use Rattle.stick_model.specs.declared.rows.Ticket.{Ticket as ItsTicket};
ghost use Rattle.tcp_proxy.specs.Ending.{code_of as specified_code, tally_of as specified_tally};

use base_sequence::Sequence;
use shard_record::Naming;
use shard_settling::{Fault, Settled};
use std::fmt;
use std::fmt::{Display, Formatter, Write};
use stick_table::{Table, Ticket};

/// How many events the shards of a settled table have counted, and how many references are out there.
#[derive(Clone, Copy)]
pub(crate) struct Tally {
    pub calls: u64,
    pub references: u64,
}

impl Display for Tally {
    ghost use Rattle.std.specs.Prelude.{Some};
    ghost use Rattle.tcp_proxy.specs.Ending.{tally_text};

    ghost output = { λ tally. Some (tally_text tally) };

    fn fmt<W: Write>(&self, f: &mut Formatter<W>) -> fmt::Result {
        let Tally { calls, references } = *self;
        write!(f, "{calls} calls, {references}")?;
        f.write_str(" references")
    }
}

/// What shards have counted together, up to 2^64 - 1.
fn count_calls(counts: &[u64]) -> u64
    ensures { result ≡ min (sum counts.now) (2 ^ 64 - 1) }
{
    let mut calls = 0u64;
    for count in counts {
        calls = calls.saturating_add(*count);
    }
    calls
}

/// How many tickets of all shards are out there, up to 2^64 - 1.
fn count_references(tickets: &[Sequence<Ticket>]) -> u64
    ensures { result ≡ min (sum_by (λ (out : List ItsTicket). length out) tickets.now) (2 ^ 64 - 1) }
{
    let mut references = 0u64;
    for out in tickets {
        references = references.saturating_add(out.len() as u64);
    }
    references
}

/// What a settled table has counted, each number up to 2^64 - 1.
pub(crate) fn tally_of<T: Table, J: Naming>(settled: &Settled<T, J>) -> Tally
    ensures { result ≡ specified_tally settled.now.counts.items settled.now.tickets.items }
{
    Tally {
        calls: count_calls(settled.counts.as_slice()),
        references: count_references(settled.tickets.as_slice()),
    }
}

/// What a table that isn't settled is said to lack.
fn code_of(fault: Fault) -> &'static str
    ensures { result.now ≡ specified_code fault }
{
    match fault {
        Fault::MissingCalls(_) => "S1",
        Fault::MissingRefs(_) => "S2",
        Fault::Mismatch(_) => "S3",
        Fault::Memory => "S4",
    }
}

/// How the table of a name ended: what was counted of it, or why it isn't settled.
#[derive(Clone, Copy)]
pub(crate) struct TableEnd<'a> {
    pub name: &'a str,
    pub outcome: Result<Tally, Fault>,
}

impl<'a> Display for TableEnd<'a> {
    ghost use Rattle.std.specs.Prelude.{Some};
    ghost use Rattle.tcp_proxy.specs.Ending.{end_text};

    ghost output = { λ end. Some (end_text end.name.now end.outcome) };

    fn fmt<W: Write>(&self, f: &mut Formatter<W>) -> fmt::Result {
        let TableEnd { name, outcome } = *self;
        match outcome {
            Ok(tally) => write!(f, "settled {name}: {tally}"),
            Err(fault) => {
                let code = code_of(fault);
                write!(f, "unsettled {name}: {code}")
            }
        }
    }
}
