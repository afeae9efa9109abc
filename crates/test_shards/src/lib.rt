//! Tests of tables in shards that threads share: of what no contract can say of a value under a lock, of calls where there is
//! memory, and of the clock that a program that serves reads.
#![tactic(auto)]

#[cfg(test)]
mod clocks;
#[cfg(test)]
mod commands;
#[cfg(test)]
mod holding;
#[cfg(test)]
mod refusals;
#[cfg(test)]
mod rolls;
#[cfg(test)]
mod rounds;
#[cfg(test)]
mod threads;
#[cfg(test)]
mod trials;
