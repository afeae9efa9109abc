//! The exit status of what became of all lines; `adoption` calls it, and `file` answers it.

ghost use Rattle.std.specs.Prelude.{◌≡◌};
ghost use Rattle.std.specs.List.{list_any};
ghost use Rattle.adopt.specs.Status as spec;

use crate::fates::FateKind;
use crate::written::Adopted;

/// The status where what is served is the same.
pub const SAME: u8 = 0;

/// The status where something that matters was lost.
pub const LOST: u8 = 3;

/// Whether a line's loss changes what is served.
pub(crate) fn matters(line: &Adopted) -> bool
    ensures { result ≡ spec.matters line.now }
{
    match line.fate.kind {
        FateKind::Altered | FateKind::Lost => true,
        FateKind::Kept
        | FateKind::Rewritten
        | FateKind::Moved
        | FateKind::Carried
        | FateKind::Harmless => false,
    }
}

/// Whether the loss of a line changes what is served.
fn loses(lines: &[Adopted]) -> bool
    ensures { result ≡ list_any spec.matters lines.now }
{
    lines.iter().any(|line| matters(line))
}

/// The status of what became of all lines: 3 where the loss of one of them changes what is served, else 0.
pub fn status_of(lines: &[Adopted]) -> u8
    ensures { result ≡ spec.status_of lines.now }
{
    if loses(lines) { LOST } else { SAME }
}
