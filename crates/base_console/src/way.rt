//! How a descriptor is written to without a wait; `outlet` asks it once for each.

ghost use Rattle.std.specs.Prelude.{◌≡◌};
ghost use Rattle.base_console.specs.Ways as spec;

/// What a descriptor is open on.
#[derive(Clone, Copy, Debug, PartialEq, Eq)]
pub enum Kind {
    File,
    Pipe,
    Socket,
    /// A terminal, or another device that takes bytes.
    Device,
    /// The system doesn't say.
    Unknown,
}

/// How a descriptor is written to, so that a write never waits for who reads.
#[derive(Clone, Copy, Debug, PartialEq, Eq)]
pub enum Way {
    /// At once: a file waits for nobody.
    AtOnce,
    /// By send(2) with MSG_DONTWAIT.
    Sent,
    /// By a description of the program's own, on which O_NONBLOCK is set. That of the descriptor is shared with other programs, so the
    /// flag isn't set there.
    Reopened,
    /// After poll(2) has found room: then a pipe takes PIPE_BUF bytes. Where another program writes to the same pipe in between, that
    /// room may be gone, and the write waits.
    Asked,
}

/// How what is open on this is written to, where it could be opened anew, or not.
pub fn way_of(kind: Kind, is_reopened: bool) -> Way
    ensures { result ≡ spec.way_of kind is_reopened }
{
    match kind {
        Kind::File => Way::AtOnce,
        Kind::Socket => Way::Sent,
        Kind::Pipe | Kind::Device if is_reopened => Way::Reopened,
        Kind::Pipe | Kind::Device | Kind::Unknown => Way::Asked,
    }
}
