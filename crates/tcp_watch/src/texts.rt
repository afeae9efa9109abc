//! What the service manager is told, in its own words; `Notifier` sends them.

ghost use Rattle.std.specs.Prelude.{◌≡◌, ◌++◌, OnOk, OnErr};
ghost use Rattle.tcp_watch.specs.Messages.{notice_text, status_text};

use base_lines::Parts;
use base_sequence::NoMemory;

/// A message of one line (sd_notify(3)).
#[derive(Clone, Copy, Debug, PartialEq, Eq)]
pub enum Notice {
    /// The program has started, and serves.
    Ready,
    /// The program ends.
    Stopping,
    /// The program is alive.
    Watchdog,
}

impl Notice {
    /// The text of the message.
    pub fn bytes(self) -> &'static [u8]
        ensures { result.now ≡ notice_text self }
    {
        match self {
            Notice::Ready => b"READY=1\n",
            Notice::Stopping => b"STOPPING=1\n",
            Notice::Watchdog => b"WATCHDOG=1\n",
        }
    }
}

/// Appends the message that says how the program is: the first line of a text, as a second one would be a message of its own.
pub fn push_status(text: &mut Vec<u8>, status: &[u8]) -> Result<(), NoMemory>
    ensures ok { OnOk result (text.new.items ≡ text.old.items ++ status_text status.now) }
{
    let line = Parts::new(status, b'\n').next().unwrap_or(&[]);
    text.extend_from_slice(b"STATUS=")?;
    text.extend_from_slice(line)?;
    text.extend_from_slice(b"\n")?;
    Ok(())
}
