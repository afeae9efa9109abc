//! The service of each line that ends in a piece of a text; `serve_lines` calls it for each read.

ghost use Rattle.std.specs.Prelude.{◌≡◌, ◌≤◌, ◌+◌, ◌++◌, ℕ, List, [], length, MatchResult, OnOk, OnErr};
ghost use Rattle.byte_ports.specs.Bytes.{Grows, IsOneMore};
ghost use Rattle.base_lines.specs.Service.{Progress, StopsAfter};

use crate::line::LineSoFar;
use crate::parts::Parts;
use crate::server::LineServer;
use byte_ports::Sink;

/// Goes on with the line by the bytes of a piece, and serves each line that ends. How many were served, also where
/// the writer failed in the next.
pub fn feed<L: LineServer, W: Sink>(
    server: &mut L,
    line: &mut LineSoFar,
    piece: &[u8],
    writer: &mut W,
) -> Result<u64, u64>
    requires { L.holds (L.state server.old) }
    // From where a text stood, after the piece it stands further on.
    ensures served { (old : L.State) (whole output : List ℕ) (count : ℕ) → Progress L.says old whole [] line.old count output (L.state server.old) →
        (more : List ℕ) × Grows W.tells (W.written writer.old) (W.written writer.new) more
        × MatchResult result (λ lines. Progress L.says old (whole ++ piece.now) [] line.new (count + lines) (output ++ more) (L.state server.new))
        (λ lines. StopsAfter L.says L.stops old (whole ++ piece.now) (count + lines) (output ++ more) (L.state server.new)) }
    ensures holds { OnOk result (L.holds (L.state server.new)) }
    ensures bound { MatchResult result (λ lines. lines ≤ length piece.now) (λ lines. lines ≤ length piece.now) }
    ensures ok { OnOk result (W.failures writer.new ≡ W.failures writer.old) }
    ensures err { OnErr result (IsOneMore (W.failures writer.old) (W.failures writer.new)) }
{
    let mut parts = Parts::new(piece, b'\n');
    let Some(first) = parts.next() else {
        return Ok(0);
    };
    line.extend(first);
    let mut served = 0u64;
    while let Some(part) = parts.next() {
        match server.serve(line.line(), writer) {
            Ok(()) => {}
            Err(_) => return Err(served),
        }
        line.clear();
        line.extend(part);
        served += 1;
    }
    Ok(served)
}
