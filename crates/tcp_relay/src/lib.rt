//! The listener's side: clients are judged, carried to the server and back, and counted; `tcp_proxy` serves its listener by it.
//!
//! The rules judge over tables that threads share.
//!
//! What sockets give and take, and what other threads do, no contract can say. So this crate is thin: what is judged and counted
//! is done below it.
#![tactic(auto)]

mod accept_errors;
mod acceptor;
mod addresses;
mod admitted;
mod arrival;
mod balance;
mod buffers;
mod closing;
mod connection;
mod connection_counter;
mod control;
mod counted;
mod drain;
mod fates;
mod gate;
mod gathering;
mod greeting;
mod header;
mod hearing;
pub mod laws;
mod leaving;
mod limits;
mod listener_turn;
mod listeners;
mod met;
mod opening;
mod places;
mod proxied;
mod receiving;
mod reserved;
mod rules;
mod runtime;
mod seating;
mod second_look;
mod served;
mod serving;
mod shared;
mod shares;
mod standing;
mod start_gate;
mod sweep;
mod traffic;
mod trust;
mod turning;
mod versions;
mod visiting;
mod waits;
mod watch;
mod width;
mod worker;

pub use addresses::socket_address;
pub use control::Control;
pub use drain::{Drain, Phase};
pub use gate::Gate;
pub use limits::Limits;
pub use listeners::Listener;
pub use runtime::ServeRuntime;
pub use served::{FaultKind, ServeFault, Served};
pub use serving::serve;
pub use start_gate::{StartGate, StartPhase};
pub use trust::Proxies;
pub use versions::{Version, Versions};
