//! How long a client is waited for; `patient_stream` decides by it, and `clients` makes patiences of a time.

ghost use Rattle.std.specs.Prelude.{◌≡◌, ◌-◌, ◌*◌, ◌<◌, ◌≤◌, None, true, false};
ghost use Rattle.table_socket.specs.declared.patience.AfterPatience.TheVariants.{TryAgain, Stop, GiveUp};

/// How long the system waits for a client at a time, in ms. So a stop is seen within that time.
pub const PATIENCE: u64 = 100;

/// How long a client is waited for.
#[derive(Clone, Copy, Debug, PartialEq, Eq)]
pub struct Times {
    /// How long it may send nothing, or take nothing, in ms.
    pub silence: u64,
    /// How long it may take for all that it came for, from its accept on, in ms. None where it may take as long as it likes.
    pub whole: Option<u64>,
}

impl Times {
    /// A client may take as long as it likes, but not be silent for so many ms.
    pub fn of_silence(silence: u64) -> Times
        ensures { result ≡ record { silence = silence; whole = None } }
    {
        Times {
            silence,
            whole: None,
        }
    }
}

/// What to do once a patience has passed in which a client sent nothing, or took nothing.
#[derive(Clone, Copy, Debug, PartialEq, Eq)]
pub enum AfterPatience {
    /// Wait for it again.
    TryAgain,
    /// Leave it, as the program stops.
    Stop,
    /// Leave it, as it has had its time.
    GiveUp,
}

/// What to do once so many patiences have passed since a client last sent or took something. It has `most` of them, and none once the
/// time for all that it came for is over.
pub fn after_patience(passed: u64, most: u64, is_late: bool, is_stopping: bool) -> AfterPatience
    ensures stop { is_stopping ≡ true → result ≡ Stop }
    ensures late { is_stopping ≡ false → is_late ≡ true → result ≡ GiveUp }
    ensures over { is_stopping ≡ false → most ≤ passed → result ≡ GiveUp }
    ensures again { is_stopping ≡ false → is_late ≡ false → passed < most → result ≡ TryAgain }
{
    if is_stopping {
        return AfterPatience::Stop;
    }
    if is_late {
        return AfterPatience::GiveUp;
    }
    if passed >= most {
        return AfterPatience::GiveUp;
    }
    AfterPatience::TryAgain
}

/// How many patiences a time of so many ms has: as few as are no shorter, and at least one.
pub fn patiences_of(time: u64) -> u64
    ensures some { 1 ≤ result }
    ensures enough { time ≤ result * 100 }
    ensures fewest { 1 < result → (result - 1) * 100 < time }
{
    if time == 0 {
        return 1;
    }
    (time - 1) / PATIENCE + 1
}
