//! IP addresses, networks and endpoints, read from their texts; rules, configurations, scripts, `adopt` and the proxy use them.
#![tactic(auto)]

mod address;
mod endpoint;
pub mod laws;
mod masking;
mod network;

pub use address::{Address, Endpoint, Network, read_address};
pub use endpoint::{read_bind, read_server};
pub use masking::Prefixes;
pub use network::read_network;
