//! How often the service manager wants to hear that the program is alive; the reports of `tcp_proxy` go by it.

ghost use Rattle.std.specs.Prelude.{◌≡◌};
ghost use Rattle.std.specs.Option.{option_map};
ghost use Rattle.tcp_watch.specs.Watchdog.{watchdog_of};

use base_lines::read_number;

/// How many ms lie between two messages that the program is alive: half of what `WATCHDOG_USEC` says, which is in microseconds, and
/// at least one (sd_watchdog_enabled(3)). None where the service manager wants none, or, by `WATCHDOG_PID`, of another process.
pub fn read_watchdog(time: Option<&[u8]>, process: Option<&[u8]>, own: u32) -> Option<u64>
    ensures { result ≡ watchdog_of (option_map (λ text. text.now) time.entry) (option_map (λ text. text.now) process.entry) own }
{
    if let Some(process) = process {
        if read_number(process) != Some(u64::from(own)) {
            return None;
        }
    }
    match read_number(time?) {
        Some(0) => None,
        Some(micros) => Some((micros / 2_000).max(1)),
        None => None,
    }
}
