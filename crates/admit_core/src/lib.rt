//! Connections: judged by rules, counted in tables, and gone with every reference given back; crates that lead connections drive
//! `Conn`.
//!
//! These are `admit_port`, `admit_drive`, `admit_world`, `stickd_script` and `tcp_relay`.
//!
//! `specs/Connection.antt` says what a connection wants next, and what each answer, refusal and turn makes of it.
#![tactic(auto)]

mod conn;
mod held;
pub mod laws;
mod need;

pub use conn::Conn;
pub use need::{Need, Phase};
