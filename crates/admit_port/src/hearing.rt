//! A connection hears what became of what it wanted.

ghost use Rattle.std.specs.Prelude.{◌≡◌, ◌+◌, ◌≤◌, ◌<◌, ℕ, None, true, false, is_some};
ghost use Rattle.admit_core.specs.Conn.{needed, progress_of, Stands};
ghost use Rattle.admit_core.specs.Connection.{Connection, answers_need, is_event, is_release, refused, took};
ghost use Rattle.admit_port.specs.DriveCode.{moves_left};
ghost use Rattle.admit_port.specs.Ports.{HoldsOf, NamesOf};

use admit_core::Conn;
use rule_eval::Answer;

/// It was answered; a reference comes exactly with `Tracked`.
pub(crate) fn take<R>(conn: &mut Conn<'_, R>, answer: Answer, reference: Option<R>)
    requires answers { answers_need (needed conn.old) answer reference ≡ true }
    requires no_release { is_release (needed conn.old) ≡ false }
    requires given { is_some (progress_of conn.old).given ≡ false }
    ensures stands { (connection : Connection R) → Stands conn.old connection → Stands conn.new (took connection answer reference) }
    ensures left { moves_left conn.new + 1 ≤ moves_left conn.old }
    ensures given { is_some (progress_of conn.new).given ≡ false }
    ensures held { (ports : ℕ) → HoldsOf ports (progress_of conn.old).held → NamesOf ports (needed conn.old) → HoldsOf ports (progress_of conn.new).held }
{
    conn.take(answer, reference);
}

/// It was refused, and goes on without.
pub(crate) fn skip<R>(conn: &mut Conn<'_, R>)
    requires event { is_event (needed conn.old) ≡ true }
    requires no_release { is_release (needed conn.old) ≡ false }
    requires given { is_some (progress_of conn.old).given ≡ false }
    ensures stands { (connection : Connection R) → Stands conn.old connection → Stands conn.new (refused connection None) }
    ensures left { moves_left conn.new + 1 ≤ moves_left conn.old }
    ensures given { is_some (progress_of conn.new).given ≡ false }
    ensures held { (ports : ℕ) → HoldsOf ports (progress_of conn.old).held → HoldsOf ports (progress_of conn.new).held }
{
    conn.refused(None);
}
