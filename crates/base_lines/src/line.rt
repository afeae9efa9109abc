//! The line that is read at present, on the stack, and its end without the carriage return; `feed` and `serve_lines` extend it.

ghost use Rattle.std.specs.Prelude.{◌≡◌, ℕ, ◌≤◌, Some, List, [], ◌∷◌, ◌++◌, option_map};
ghost use Rattle.base_lines.specs.Line as spec;
ghost use Rattle.base_lines.specs.Line.{held, held_with};

use std::marker::Model;

/// The most bytes of a line, without its end. A line with more is too long.
pub const LINE_LIMIT: usize = 16_384;

/// The line that is being read: its bytes so far, on the stack, unless it is too long.
#[derive(Drop)]
pub struct LineSoFar {
    bytes: [u8; LINE_LIMIT],
    length: usize,
    is_too_long: bool,
}

impl Model for LineSoFar {
    ghost use Rattle.std.specs.Prelude.{ℕ, List, Option, Some, None, ◌≤◌, take, if◌then◌else◌};
    ghost use Rattle.base_lines.specs.declared.line.TheConstants.{LINE_LIMIT};

    ghost Value = { Option (List ℕ) };

    ghost view = { λ line. if line.is_too_long then None else Some (take line.length line.bytes) };

    ghost invariant = { λ line. line.length ≤ LINE_LIMIT };
}

impl LineSoFar {
    /// An empty line.
    pub fn new() -> Self
        ensures { result ≡ Some [] }
    {
        LineSoFar {
            bytes: [0; LINE_LIMIT],
            length: 0,
            is_too_long: false,
        }
    }

    /// Begins an empty line.
    pub fn clear(&mut self)
        ensures { self.new ≡ Some [] }
    {
        self.length = 0;
        self.is_too_long = false;
    }

    /// Goes on with the line by these bytes.
    pub fn extend(&mut self, bytes: &[u8])
        ensures exact { self.new ≡ held_with self.old bytes.now }
        // What stood for a line stands for the longer line.
        ensures stands { (line : List ℕ) → self.old ≡ held line → self.new ≡ held (line ++ bytes.now) }
    {
        if bytes.len() > LINE_LIMIT - self.length {
            self.is_too_long = true;
            return;
        }
        let end = self.length + bytes.len();
        self.bytes[self.length..end].copy_from_slice(bytes);
        self.length = end;
    }

    /// The line. None where it is too long.
    pub fn line(&self) -> Option<&[u8]>
        ensures { option_map (λ line. line.now) result ≡ self.now }
    {
        if self.is_too_long {
            None
        } else {
            Some(&self.bytes[..self.length])
        }
    }
}

/// The line without the one carriage return at its end, where it has one.
pub fn without_cr(line: &[u8]) -> &[u8]
    ensures { result.now ≡ spec.without_cr line.now }
{
    match line.split_last() {
        Some((last, prefix)) if *last == b'\r' => prefix,
        _ => line,
    }
}
