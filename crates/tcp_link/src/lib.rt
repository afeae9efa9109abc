//! The two sockets of a connection, none of which waits, and the bytes between them; `tcp_relay` holds a `Link` per admitted
//! connection.
//!
//! The contracts say what a link counts, when it was heard last, when it is late and when it is over. They say when each side is
//! told that the other has ended, and that in each direction what was read is what was written and what waits. A server that
//! refuses is tried again, so often and so late as they say, and what was read of its client stays meanwhile. What sockets give
//! and take, and whether they are reported, no contract can say: a link whose sockets are never ready meets its contracts too.
#![tactic(auto)]

mod address;
mod ahead;
mod buffer;
mod calls;
mod closing;
mod connect_fault;
mod end;
mod incoming;
mod keepalive;
mod lateness;
pub mod laws;
mod link;
mod liveness;
mod loss;
mod outgoing;
mod ready;
mod resetting;
mod server_socket;
mod timeouts;
mod unopened;
mod way;

pub use ahead::Ahead;
pub use buffer::Buffer;
pub use connect_fault::{ConnectFault, Unreached, connect_fault_of};
pub use end::Side;
pub use keepalive::Keepalive;
pub use lateness::Lateness;
pub use link::Link;
pub use liveness::{Liveness, UserTimeout};
pub use ready::Ready;
pub use resetting::reset;
pub use server_socket::ServerSocket;
pub use timeouts::Timeouts;
pub use unopened::Unopened;
