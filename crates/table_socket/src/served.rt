//! What is counted of a socket's clients; `clients` counts, and `tcp_proxy` sums what its threads have counted.

ghost use Rattle.std.specs.Prelude.{◌≡◌};
ghost use Rattle.table_cli.specs.States.{more};

/// How many clients were served, how many commands of theirs were answered, and how often no client could be accepted.
/// Each count stops at 2^64 - 1.
#[derive(Clone, Copy, Debug, PartialEq, Eq)]
pub struct Served {
    pub clients: u64,
    pub commands: u64,
    pub unaccepted: u64,
}

impl Served {
    /// One client was served, of whom so many commands were answered.
    pub(crate) fn note_client(&mut self, commands: u64)
        ensures { self.new ≡ record { clients = more self.old.clients 1; commands = more self.old.commands commands; unaccepted = self.old.unaccepted } }
    {
        self.clients = self.clients.saturating_add(1);
        self.commands = self.commands.saturating_add(commands);
    }

    /// A client couldn't be accepted.
    pub(crate) fn note_unaccepted(&mut self)
        ensures { self.new ≡ record { clients = self.old.clients; commands = self.old.commands; unaccepted = more self.old.unaccepted 1 } }
    {
        self.unaccepted = self.unaccepted.saturating_add(1);
    }

    /// What two threads have counted.
    pub fn with(self, other: Served) -> Served
        ensures { result ≡ record { clients = more self.clients other.clients; commands = more self.commands other.commands; unaccepted = more self.unaccepted other.unaccepted } }
    {
        Served {
            clients: self.clients.saturating_add(other.clients),
            commands: self.commands.saturating_add(other.commands),
            unaccepted: self.unaccepted.saturating_add(other.unaccepted),
        }
    }
}
