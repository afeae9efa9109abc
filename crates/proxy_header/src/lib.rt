//! Headers of the PROXY protocol, by which a proxy says for whom it connects: read from the first bytes of a connection, and
//! written for a server, without memory.
//!
//! The standard is HAProxy Technologies' "The PROXY protocol, Versions 1 & 2": section 2.1 has version 1, a line of text, and
//! section 2.2 has version 2, which is binary. The definitions are in `specs`: `Header` (what bytes say), `Line` and `Binary` (of
//! each version), `Written`, `Laws`, and `Vectors` (headers from outside, and what is made of them).
#![tactic(auto)]

mod binary;
mod binary_written;
mod ends;
mod family;
mod greeting;
mod header_bytes;
pub mod laws;
mod line;
mod line_written;
mod printing;
mod reading;
mod writing;

pub use ends::{Ends, Heard};
pub use greeting::Greeting;
pub use reading::hear;
pub use writing::{Version, write};
