//! The trait `ClientServer`, what is done with a client of a socket; the command socket's and the stats socket's services implement it,
//! and `serve_clients` calls it.

ghost use Rattle.table_socket.specs.Clients.{Visit, state_of};

use base_clock::Clock;
use byte_ports::{Sink, Source};
use shard_book::Keeper;
use table_cli::CommandService;

/// What is done with the clients of a socket, one after another.
pub trait ClientServer {
    ghost use Rattle.std.specs.Prelude.{ℕ};

    // What serving a client changes.
    ghost State: { Type 0 };

    ghost state: { Self → State };

    // From a state, a client that was answered so many commands whole may leave this state.
    ghost visits: { State → ℕ → State → Type 0 };

    /// Serves a client until it ends, fails, or has all that it came for. How many commands were answered whole.
    fn serve_client<R: Source, W: Sink>(&mut self, reader: &mut R, writer: &mut W) -> u64
        ensures { visits (state self.old) result (state self.new) };
}

/// All lines of a client are answered until it ends, where HAProxy closes behind the first.
impl<K: Keeper, C: Clock> ClientServer for CommandService<K, C> {
    ghost use Rattle.table_cli.specs.States.{CommandState};
    ghost use Rattle.table_socket.specs.Clients.{Visit, state_of};

    ghost State = { CommandState K.State C.State };

    ghost state = { λ service. state_of K.table K.parts K.state C.state service.tables.items service.clock };

    ghost visits = { Visit K.answers K.refuses C.shows };

    fn serve_client<R: Source, W: Sink>(&mut self, reader: &mut R, writer: &mut W) -> u64 {
        match self.run(reader, writer) {
            Ok(count) => count,
            Err(fault) => fault.done,
        }
    }
}
