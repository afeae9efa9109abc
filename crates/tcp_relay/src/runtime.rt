//! What serving asks of the system, as the trait `ServeRuntime`; `serve`, `turning` and `visiting` want it.

use std::net::{Net, TcpListener, TcpStream};
use std::sync::Wait;
use std::thread::Threads;
use std::time::Clock;

/// A runtime that can serve: its sockets go to threads, which wait for each other and read its time.
pub trait ServeRuntime: Net<Listener = TcpListener, Stream = TcpStream>
    + Threads
    + Wait
    + Clock
    + Sync {}

impl<
    R: Net<Listener = TcpListener, Stream = TcpStream> + Threads + Wait + Clock + Sync,
> ServeRuntime for R {}
