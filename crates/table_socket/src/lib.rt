//! The sockets on which operators and their tools ask a running program, and how their clients are waited for; `tcp_proxy` binds and
//! serves them, and `stickd` reads their modes.
#![tactic(auto)]

mod accepting;
mod binding;
mod client_server;
mod clients;
mod fault;
mod file_id;
mod group;
mod mode;
mod patience;
mod patient_stream;
mod served;

pub use accepting::{ClientListener, ClientStream, patient_tcp, patient_unix};
pub use binding::{Access, BoundSocket, MAX_PATH, bind_socket, remove_own};
pub use client_server::ClientServer;
pub use clients::serve_clients;
pub use fault::SocketFault;
pub use file_id::{FileId, is_own};
pub use group::group_number;
pub use mode::{is_narrowed, read_mode};
pub use patience::{AfterPatience, PATIENCE, Times, after_patience, patiences_of};
pub use served::Served;
