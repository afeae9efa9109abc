//! The trait `Program`, what the stats ask of the running program; `tcp_proxy` implements it.

use base_sequence::NoMemory;
use tcp_stats::{ProcessFacts, Snapshot, TableFacts};

/// What becomes of the wish that a frontend takes no more clients.
#[derive(Clone, Copy, Debug, PartialEq, Eq)]
pub enum Shutdown {
    /// It begins now.
    Begun,
    /// It had begun before.
    Already,
    /// There is no frontend of that name.
    NoSuch,
}

/// The running program.
pub trait Program {
    /// What is known of it now, with these facts of its tables.
    fn snapshot<'a>(&'a self, tables: &'a [TableFacts<'a>]) -> Snapshot<'a>;

    /// What the system says of its process now.
    fn process(&self) -> ProcessFacts;

    /// Has the frontend of a name take no more clients. Where that is this program's, it ends once those that it has are gone, or
    /// once its time for that is over.
    fn shut_down(&self, frontend: &[u8]) -> Shutdown;

    /// Has the program take no more clients, and end once those that it has are gone, or once so many ms are over: where no number is
    /// given, as many as it was told as it started, or none where it drains already. Of two moments the earlier counts.
    fn stop(&self, drain: Option<u64>);

    /// Has the rules read again, of the file of the start. Appends the answer to the client, a line without an end: what was done, or why
    /// nothing was.
    fn reload(&self, answer: &mut Vec<u8>) -> Result<(), NoMemory>;
}
