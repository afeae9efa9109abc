//! The trait `LineServer`, what serves lines; `table_cli` and `stickd_script` implement it, and `serve_lines` calls it.

use byte_ports::{Failed, Sink};

/// What serves lines, one after another.
pub trait LineServer {
    ghost use Rattle.std.specs.Prelude.{◌≡◌, ℕ, List, Option, OnOk, OnErr, option_map};
    ghost use Rattle.byte_ports.specs.Bytes.{Grows, IsOneMore};

    // What serving a line changes.
    ghost State: { Type 0 };

    ghost state: { Self → State };

    // What holds of it before each line, and after one that was answered whole.
    ghost holds: { State → Type 0 };

    // From a state, a line (none, where it is too long) may write this text and leave this state.
    ghost says: { State → Option (List ℕ) → List ℕ → State → Type 0 };

    // From a state, the answer to a line may stop behind this text and leave this state.
    ghost stops: { State → Option (List ℕ) → List ℕ → State → Type 0 };

    /// Serves a line: none, where it is too long.
    fn serve<W: Sink>(&mut self, line: Option<&[u8]>, writer: &mut W) -> Result<(), Failed>
        requires { holds (state self.old) }
        ensures answer { OnOk result ((text : List ℕ) × says (state self.old) (option_map (λ bytes. bytes.now) line.entry) text (state self.new)
            × Grows W.tells (W.written writer.old) (W.written writer.new) text) }
        ensures holds { OnOk result (holds (state self.new)) }
        ensures part { OnErr result ((text : List ℕ) × stops (state self.old) (option_map (λ bytes. bytes.now) line.entry) text (state self.new)
            × Grows W.tells (W.written writer.old) (W.written writer.new) text) }
        ensures ok { OnOk result (W.failures writer.new ≡ W.failures writer.old) }
        ensures err { OnErr result (IsOneMore (W.failures writer.old) (W.failures writer.new)) };
}
