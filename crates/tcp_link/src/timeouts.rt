//! How long a connection may be silent; `stickd` makes it of the command line, and `Link` goes by it.

ghost use Rattle.std.specs.Prelude.{◌≡◌};
ghost use Rattle.tcp_link.specs.Silence.{limit_at_end};

/// How long a connection's peers may be silent, in ms.
#[derive(Clone, Copy, Debug, PartialEq, Eq)]
pub struct Timeouts {
    /// How long the server may take to accept the connection.
    pub connect: u64,
    /// How long nothing may pass to or from the client. None: for ever.
    pub client: Option<u64>,
    /// How long nothing may pass to or from the server, once it has accepted the connection. None: for ever.
    pub server: Option<u64>,
    /// How long nothing may pass to or from each of both, in place of the last two, once one of them has ended. None: as long as
    /// before.
    pub fin: Option<u64>,
}

impl Timeouts {
    /// How long nothing may pass to or from a side that may usually be silent for so long, where one of both has ended or not.
    pub(crate) fn limit(&self, has_ended: bool, usual: Option<u64>) -> Option<u64>
        ensures { result ≡ limit_at_end has_ended self.now.fin usual }
    {
        if has_ended { self.fin.or(usual) } else { usual }
    }
}
