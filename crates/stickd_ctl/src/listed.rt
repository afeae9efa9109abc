//! The entries of a listing that comes in pieces; `client` tells its progress by them.

ghost use Rattle.std.specs.Prelude.{◌≡◌, ◌<◌, ◌≤◌, Option, None, Some, IfSome, if◌then◌else◌, length};
ghost use Rattle.base_lines.specs.Parts.{is_line_end};
ghost use Rattle.stickd_ctl.specs.Progressing as spec;
ghost use Rattle.stickd_ctl.specs.Progressing.{taken, with_line, with_lines, with_more};

use crate::lines::read_header;
use base_lines::Parts;

/// The entries of a listing that have come, and how many its tables say that they have.
#[derive(Clone, Copy, Debug, PartialEq, Eq)]
pub struct Listed {
    pub entries: u64,
    pub whole: u64,
}

impl Listed {
    /// Nothing has come.
    pub fn new() -> Listed
        ensures { result ≡ record { entries = 0; whole = 0 } }
    {
        Listed {
            entries: 0,
            whole: 0,
        }
    }

    /// Notes a line that has come.
    fn note(&mut self, line: &[u8])
        ensures { self.new ≡ with_line self.old line.now }
    {
        if line.starts_with(b"0x") {
            self.entries = self.entries.saturating_add(1);
            return;
        }
        if let Some(header) = read_header(line) {
            self.whole = self.whole.saturating_add(header.used);
        }
    }

    /// Notes the lines that have come, of which the last stands without its line end.
    pub fn note_lines(&mut self, text: &[u8])
        ensures { self.new ≡ with_lines self.old text.now }
    {
        let mut lines = Parts::new(text, b'\n');
        while let Some(line) = lines.next() {
            self.note(line);
        }
    }

    /// Notes those lines of a text that have ended, and answers how many of its bytes these take.
    pub(crate) fn note_more(&mut self, text: &[u8]) -> usize
        ensures listed { self.new ≡ with_more self.old text.now }
        ensures taken { result ≡ taken text.now }
        ensures within { result ≤ length text.now }
    {
        let Some(end) = last_end(text) else {
            return 0;
        };
        self.note_lines(&text[..end]);
        end + 1
    }
}

/// The later of the last line end so far and that of a byte more.
fn later_end(last: Option<usize>, place: usize, byte: u8) -> Option<usize>
    ensures { result ≡ (if is_line_end byte then Some place else last) }
{
    if byte == b'\n' { Some(place) } else { last }
}

/// The place of the last line end of a text.
pub(crate) fn last_end(text: &[u8]) -> Option<usize>
    ensures end { result ≡ spec.last_end text.now }
    ensures within { IfSome result (λ place. place < length text.now) }
{
    let mut last = None;
    for (place, byte) in text.iter().enumerate() {
        last = later_end(last, place, *byte);
    }
    last
}
