//! Which records a filter means; `changes` clears by it, and `rows` lists.
ghost use Rattle.std.specs.Prelude.{◌≡◌, ◌<◌, ◌^◌, filter, not, count_by, true, false};
ghost use Rattle.stick_model.specs.declared.replies.Reply.TheVariants.{Cleared};
ghost use Rattle.stick_model.specs.Filters.{passes as passes_filter, is_matched};

use crate::contents::records::is_same;
use crate::contents::tickets::{count_refs, is_tracked};
use stick_key::StickKey;
use stick_model::{Filter, Record, Reply, Ticket};

/// Whether a filter means an entry, by the values that its row shows at this moment in ms.
pub(crate) fn passes(
    tickets: &[(Ticket, StickKey)],
    clock: u64,
    choice: &Filter,
    entry: &(StickKey, Record),
) -> bool
    requires clock { clock < 2 ^ 62 }
    ensures { result ≡ passes_filter clock tickets.now choice.now entry.now }
{
    match choice {
        Filter::Everything => true,
        Filter::Nothing => false,
        Filter::Key(key) => is_same(key, &entry.0),
        Filter::Compare(field, op, bound) => {
            let value = entry
                .1
                .values
                .get(*field, clock)
                .unwrap_or(count_refs(tickets, &entry.0) as u64);
            op.compares(value, *bound)
        }
    }
}

fn matches(
    tickets: &[(Ticket, StickKey)],
    clock: u64,
    choice: &Filter,
    tracked: bool,
    entry: &(StickKey, Record),
) -> bool
    requires { clock < 2 ^ 62 }
    ensures { result ≡ is_matched clock tickets.now choice.now tracked entry.now }
{
    if is_tracked(tickets, &entry.0) {
        tracked && passes(tickets, clock, choice, entry)
    } else {
        !tracked && passes(tickets, clock, choice, entry)
    }
}

/// How many records match, of those that are tracked or of the others.
fn count_matching(
    records: &[(StickKey, Record)],
    tickets: &[(Ticket, StickKey)],
    clock: u64,
    choice: &Filter,
    tracked: bool,
) -> usize
    requires { clock < 2 ^ 62 }
    ensures { result ≡ count_by (is_matched clock tickets.now choice.now tracked) records.now }
{
    let mut count = 0;
    for entry in records {
        if matches(tickets, clock, choice, tracked, entry) {
            count += 1;
        }
    }
    count
}

/// Removes the untracked records that match.
fn remove_matching(
    records: &mut Vec<(StickKey, Record)>,
    tickets: &[(Ticket, StickKey)],
    clock: u64,
    choice: &Filter,
)
    requires { clock < 2 ^ 62 }
    ensures { records.new.items ≡ filter (λ entry. not (is_matched clock tickets.now choice.now false entry)) records.old.items }
{
    records.retain(|entry| !matches(tickets, clock, choice, false, entry));
}

/// Removes the untracked records that match, and tells how many went and how many stayed.
pub(crate) fn clear_matching(
    records: &mut Vec<(StickKey, Record)>,
    tickets: &[(Ticket, StickKey)],
    clock: u64,
    choice: &Filter,
) -> Reply
    requires { clock < 2 ^ 62 }
    ensures reply { result ≡ Cleared
        (count_by (is_matched clock tickets.now choice.now false) records.old.items)
        (count_by (is_matched clock tickets.now choice.now true) records.old.items) }
    ensures records { records.new.items ≡ filter (λ entry. not (is_matched clock tickets.now choice.now false entry)) records.old.items }
{
    let removed = count_matching(records, tickets, clock, choice, false) as u64;
    let kept = count_matching(records, tickets, clock, choice, true) as u64;
    remove_matching(records, tickets, clock, choice);
    Reply::Cleared { removed, kept }
}
