//! Headers of version 1 written; `write` calls it.
ghost use Rattle.std.specs.Prelude.{◌≡◌, ◌+◌, ◌≤◌, ◌++◌, length, codes};
ghost use Rattle.proxy_header.specs.Written.{line, words_of, written_line};

use crate::Ends;
use crate::family::{Family, family_of};
use crate::header_bytes::HeaderBytes;
use crate::printing::push_address;

/// Writes both addresses and both ports, parted by spaces, and the end of the line.
fn push_ends(text: &mut HeaderBytes, ends: &Ends)
    requires { length text.old + 95 ≤ 107 }
    ensures { text.new ≡ text.old ++ line (words_of ends.now) }
{
    push_address(text, ends.source);
    text.push(b" ");
    push_address(text, ends.destination);
    text.push(b" ");
    text.push_port(ends.source_port);
    text.push(b" ");
    text.push_port(ends.destination_port);
    text.push(b"\r\n");
}

/// The header of version 1 that tells these ends, where they are of one family.
pub(crate) fn written_line(ends: &Ends) -> HeaderBytes
    ensures { result ≡ written_line ends.now }
{
    let mut text = HeaderBytes::new();
    match family_of(ends) {
        Some(Family::Ipv4) => text.push(b"PROXY TCP4 "),
        Some(Family::Ipv6) => text.push(b"PROXY TCP6 "),
        None => {
            text.push(b"PROXY UNKNOWN\r\n");
            return text;
        }
    }
    push_ends(&mut text, ends);
    text
}
