//! What a program that stops says last to who waits for its end on its stats socket; `tcp_proxy` says it, and `stopping` hears it.

ghost use Rattle.std.specs.Prelude.{◌≡◌, if◌then◌else◌};
ghost use Rattle.stickd_ctl.specs.LastWord as spec;

/// What a program that stops says last, on each connection to its stats socket that it then has. The connection ends with the program.
#[derive(Clone, Copy, Debug, PartialEq, Eq)]
pub enum LastWord {
    /// It has stopped in order, and saved its tables, if it was to.
    Stopped,
    /// It has stopped, and couldn't save its tables.
    Unsaved,
}

impl LastWord {
    /// Of a program that saved its tables, or had none to save; or that couldn't.
    pub fn of(is_saved: bool) -> LastWord
        ensures { result ≡ (if is_saved then LastWord.Stopped else LastWord.Unsaved) }
    {
        if is_saved {
            LastWord::Stopped
        } else {
            LastWord::Unsaved
        }
    }

    /// Its bytes.
    pub fn bytes(self) -> &'static [u8]
        ensures { result.now ≡ spec.word_text self }
    {
        match self {
            LastWord::Stopped => b"Stopped.\n",
            LastWord::Unsaved => b"Stopped, but not saved.\n",
        }
    }
}

/// The last word that an answer is, if it is one.
pub fn read_last_word(answer: &[u8]) -> Option<LastWord>
    ensures { result ≡ spec.word_of answer.now }
{
    if answer == b"Stopped.\n".as_slice() {
        return Some(LastWord::Stopped);
    }
    if answer == b"Stopped, but not saved.\n".as_slice() {
        return Some(LastWord::Unsaved);
    }
    None
}
