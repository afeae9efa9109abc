//! The reader of a whole configuration; `stickd_input` and `adopt` call `read_config`.
//!
//! It reads sections with stick tables, ACLs and rules (HAProxy Configuration Manual 2.8).
//!
//! `specs/Config.antt` says what a text means: what each line says (`specs/Lines.antt`, `Statements.antt`, `Actions.antt`), taken
//! line by line.
//!
//! `limit_laws` goes from the text of a configuration to the rules of which `rule_eval`'s laws of limits are. These are the lines
//! `tcp-request connection track-sc0 src` and `tcp-request connection reject if { sc0_conn_cur gt L }`.
#![tactic(auto)]

mod actions;
mod config;
pub mod laws;
pub mod limit_laws;
mod needs;
mod reading;
mod statements;

pub use config::{ConfigFault, read_config};
