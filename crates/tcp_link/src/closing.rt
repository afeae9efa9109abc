//! Which sockets of a connection are closed by a reset; `Link` decides by it as it closes.

ghost use Rattle.std.specs.Prelude.{◌≡◌};
ghost use Rattle.tcp_link.specs.Closing.{closing, is_cut, lost_bytes, reader_failed, writer_failed};

use tcp_flow::{Cause, Step};

/// Which of both sockets is reset. The other, or both, are closed in order.
#[derive(Clone, Copy, Debug, PartialEq, Eq)]
pub(crate) struct Closing {
    pub(crate) resets_client: bool,
    pub(crate) resets_server: bool,
}

impl Closing {
    /// How both are closed, by how far the direction there and the one back are, and whether the server has accepted.
    pub(crate) fn of(there: Step, back: Step, is_accepted: bool) -> Closing
        ensures { result ≡ closing there back is_accepted }
    {
        let is_torn = lost_bytes(there) || lost_bytes(back);
        Closing {
            resets_client: is_accepted && (is_cut(back, there) || is_torn),
            resets_server: is_cut(there, back) || is_torn,
        }
    }
}

/// Whether what a side was sent isn't whole, by the direction to it and the one from it.
fn is_cut(to: Step, from: Step) -> bool
    ensures { result ≡ is_cut to from }
{
    reader_failed(to) || writer_failed(from) && to != Step::Ended
}

/// Whether the socket that is read of has failed, before it told its end.
pub(crate) fn reader_failed(step: Step) -> bool
    ensures { result ≡ reader_failed step }
{
    matches!(step, Step::Failed(Cause::Read))
}

/// Whether the socket that is written to has failed.
pub(crate) fn writer_failed(step: Step) -> bool
    ensures { result ≡ writer_failed step }
{
    matches!(step, Step::Failed(Cause::Write))
}

/// Whether bytes were lost, as there was no memory to keep them in.
pub(crate) fn lost_bytes(step: Step) -> bool
    ensures { result ≡ lost_bytes step }
{
    matches!(step, Step::Failed(Cause::Memory))
}
