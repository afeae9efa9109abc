//! The comparison of the tickets that are out with those that are shown, in any order; `counts` calls it.

ghost use Rattle.std.specs.Prelude.{◌≡◌, ◌↔◌, IsTrue, IsPermutation};
ghost use Rattle.shard_settling.specs.Order.{Rise};

use stick_model::Ticket;

/// Whether two lists have the same tickets, each as often, in any order.
pub(crate) fn are_same(mut tickets: Vec<Ticket>, mut others: Vec<Ticket>) -> bool
    ensures { IsTrue result ↔ IsPermutation tickets.items others.items }
{
    sort(&mut tickets);
    sort(&mut others);
    are_equal(tickets.as_slice(), others.as_slice())
}

/// Sorts tickets by their numbers, and those of one number by their slots.
fn sort(tickets: &mut Vec<Ticket>)
    ensures rise { Rise tickets.new.items }
    ensures permutation { IsPermutation tickets.old.items tickets.new.items }
{
    tickets.sort_unstable_by_key(|ticket| (ticket.number, ticket.slot));
}

/// Whether two lists have the same tickets in the same order.
fn are_equal(tickets: &[Ticket], others: &[Ticket]) -> bool
    ensures { IsTrue result ↔ (tickets.now ≡ others.now) }
{
    tickets == others
}
