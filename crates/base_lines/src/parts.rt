//! A cursor over the parts of a slice at a byte; readers of configurations and commands cut lines, commands and lists by it.

ghost use Rattle.std.specs.Prelude.{◌≡◌, ◌≤◌, ◌+◌, [], ◌∷◌, ◌↔◌, length, IsTrue, MatchOption};
ghost use Rattle.base_lines.specs.Parts.{parts, is_byte};
ghost use Rattle.base_lines.specs.Cursor.{parts_left};

use std::marker::Model;

/// The first part, and what stands behind the byte that ends it.
fn split_first(text: &[u8], separator: u8) -> (&[u8], Option<&[u8]>)
    ensures { parts (is_byte separator) text.now ≡ result.0.now ∷ parts_left separator result.1 }
{
    for (place, byte) in text.iter().enumerate() {
        if *byte == separator {
            return (&text[..place], Some(&text[place + 1..]));
        }
    }
    (text, None)
}

/// A cursor over the parts of a slice at a byte, as the lines of a text at LF, or the commands of a line at `;`. A
/// slice has one part more than it has such bytes. Contracts see the parts that are left.
#[derive(Drop)]
pub struct Parts<'a> {
    rest: Option<&'a [u8]>,
    separator: u8,
}

impl<'a> Model for Parts<'a> {
    ghost use Rattle.std.specs.Prelude.{ℕ, List};
    ghost use Rattle.base_lines.specs.Cursor.{parts_left};

    ghost Value = { List (List ℕ) };

    ghost view = { λ cursor. parts_left cursor.separator cursor.rest };
}

impl<'a> Parts<'a> {
    /// All parts of a slice.
    #[tactic(auto, using(crate::proofs::PartLemmas::few_parts))]
    pub fn new(text: &'a [u8], separator: u8) -> Self
        ensures parts { result ≡ parts (is_byte separator) text.now }
        ensures few { length result ≤ length text.now + 1 }
    {
        Parts {
            rest: Some(text),
            separator,
        }
    }

    /// Takes the next part. None behind the last one.
    pub fn next(&mut self) -> Option<&'a [u8]>
        ensures { MatchOption result ((self.old ≡ []) × (self.new ≡ [])) (λ part. self.old ≡ part.now ∷ self.new) }
    {
        let text = self.rest?;
        let (part, rest) = split_first(text, self.separator);
        self.rest = rest;
        Some(part)
    }

    /// Whether the last part was taken.
    pub fn is_done(&self) -> bool
        ensures { IsTrue result ↔ (self.now ≡ []) }
    {
        self.rest.is_none()
    }
}
