//! What is known of all workers, as the trait `Width`; the types of workers, connections and lists are made by it.

ghost use Rattle.std.specs.Prelude.{ℕ, Bool, Option, None, false};
ghost use Rattle.rule_model.specs.declared.sections.Setup.{Setup};
ghost use Rattle.tcp_relay.specs.Arrivals.{Trust};
ghost use Rattle.tcp_relay.specs.Seating.{no_setup};

use std::marker::Brand;

/// How many tables there are, in how many shards each is, which of them store conn_cur, how many connections a worker holds at
/// most, by what setup they are judged first, and which proxies are believed. A type names them, so that they are known also of what
/// comes back from a thread.
pub trait Width {
    ghost tables: { ℕ };

    ghost shards: { ℕ };

    ghost current: { ℕ → Bool };

    ghost most: { ℕ };

    ghost setup: { Setup };

    ghost trust: { Option Trust };
}

impl Width for Brand {
    ghost tables = { 0 };

    ghost shards = { 0 };

    ghost current = { λ table. false };

    ghost most = { 0 };

    ghost setup = { no_setup };

    ghost trust = { None };
}
