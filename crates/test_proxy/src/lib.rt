//! Tests of what no contract of the proxy's parts can say, and no trial of the running proxy shows: what a port makes of each
//! error of a stream and where a turn of a direction stops; cells that one thread writes while another reads; and what the system
//! is told of silent peers.
#![tactic(auto)]

#[cfg(test)]
mod cells;
#[cfg(test)]
mod keepalives;
#[cfg(test)]
mod lasts;
#[cfg(test)]
mod streams;
#[cfg(test)]
mod turns;
