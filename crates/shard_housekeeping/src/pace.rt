//! The trait `Pace`, when a round comes; `tcp_proxy` implements it, and `housekeep` asks it before each round.

/// What says when the next round of housekeeping comes, and when there is none.
pub trait Pace {
    /// Asked before each round, which it may put off by not answering yet. Answers whether there is one.
    fn next(&self) -> bool;
}
