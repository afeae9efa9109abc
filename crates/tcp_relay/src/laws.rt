//! Laws of shares, of who takes a client, of looks for silent peers, of drains, of what has passed a limit, and of limits that change; each
//! is the contract of an empty function, which no code calls.

ghost use Rattle.tcp_relay.specs.Accepting.{SharesLaw};
ghost use Rattle.tcp_relay.specs.Across.{AcrossLaw, PassesMoreLaw};
ghost use Rattle.tcp_relay.specs.Balance.{AloneLaw, EvenLaw, TakenLaw};
ghost use Rattle.tcp_relay.specs.Draining.{DrainLaw};
ghost use Rattle.tcp_relay.specs.Passed.{PassedStaysLaw};
ghost use Rattle.tcp_relay.specs.Sweeps.{LookLaw, SilenceLaw};

/// The workers' shares come to all connections.
pub fn shares()
    ensures { SharesLaw }
{}

/// Whoever is left a client takes it, and leaves it to nobody, as long as nothing else changes.
pub fn left_is_taken()
    ensures { TakenLaw }
{}

/// A worker that is alone leaves a client to nobody, so it needn't look at what is shown.
pub fn alone_leaves_none()
    ensures { AloneLaw }
{}

/// As long as no connection ends, what workers hold that have room differs by one at most.
pub fn stays_even()
    ensures { EvenLaw }
{}

/// Silent peers are looked for as of a moment only once all that was ready then has been told.
pub fn looks()
    ensures { LookLaw }
{}

/// However often a worker is held up, silence goes on counting.
pub fn silence_goes_on()
    ensures { SilenceLaw }
{}

/// Once a drain has begun no client is accepted any more, and at its moment open connections are closed, whatever calls began it.
pub fn drains()
    ensures { DrainLaw }
{}

/// Whatever a connection does by a worker's seats, a reference that has passed by what they knew has passed by what they know then.
pub fn passed_stays()
    ensures { PassedStaysLaw }
{}

/// A reference that has passed a limit has passed each greater one.
pub fn passes_more()
    ensures { PassesMoreLaw }
{}

/// Whatever the threads do, and however limits change meanwhile: of the references of a key, at most as many have passed one of some limits
/// as the greatest of these.
pub fn across()
    ensures { AcrossLaw }
{}
