//! The verdict on a connection by the rules of a proxy, asked of the tables one event at a time; `admit_core` asks it.
//!
//! The rules are those of `tcp-request connection` (HAProxy Configuration Manual 2.8).
//!
//! `specs/Verdict.antt` says what is asked next after the answers so far, by recursion on the rules.
#![tactic(auto)]

mod case;
mod evaluation;
pub mod laws;
mod measures;
mod questions;
mod readings;
mod scan;
mod slots;
mod tables;
mod wants;

pub use evaluation::Eval;
pub use slots::Slots;
pub use wants::{Answer, Asked, Samples, Verdict, Want};
