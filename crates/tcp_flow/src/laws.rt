//! Laws of a direction's moves; each is the contract of an empty function, which no code calls.
//!
//! They hold whatever the order in which its devices are ready.

ghost use Rattle.tcp_flow.specs.Passage.{JoinLaw, PrefixLaw};
ghost use Rattle.tcp_flow.specs.Turns.{GoesOnLaw};

use crate::ready::{ReadySink, ReadySource};

/// A move and one after it are one.
pub fn join<R: ReadySource, W: ReadySink>()
    ensures { JoinLaw R.tells W.tells }
{}

/// What was written since a direction began is the first part of what was read, and all of it where nothing waits.
pub fn prefix<R: ReadySource, W: ReadySink>()
    ensures { PrefixLaw R.tells W.tells }
{}

/// A turn that isn't the last is a move: nothing is lost.
pub fn goes_on<R: ReadySource, W: ReadySink>()
    ensures { GoesOnLaw R.tells W.tells }
{}
