//! Headers read from the first bytes of a connection.
ghost use Rattle.std.specs.Prelude.{◌≡◌, length};
ghost use Rattle.proxy_header.specs.Header.{HasRoom, heard};

use crate::Heard;
use crate::binary::{SIGNATURE, hear_binary};
use crate::line::{PROXY, hear_line};

/// What the first bytes of a connection say by the PROXY protocol, version 1 (section 2.1) or 2 (section 2.2).
///
/// - `Unfinished`: the bytes are a beginning of either, with fewer than 107 bytes of a line or fewer than a binary header says.
/// - `Told`: a header of at most 107 bytes (version 1) or 4,096 (version 2). It has ends where it is of TCP over IPv4 or IPv6.
///   LOCAL, UNKNOWN, UNSPEC, UNIX sockets and datagrams tell none. What follows the ends in version 2 is counted and not read.
/// - `Wrong`: all else. A command, a family or a protocol that isn't defined, and a length above 4,096, are wrong as soon as they
///   are there; a line is judged at its end, and whether ends have room at the end of the header.
#[tactic(auto, unfolding(crate::specs::Header::heard), using(crate::proofs::BinaryLemmas::binary_room, crate::proofs::LineLaws::line_room))]
pub fn hear(bytes: &[u8]) -> Heard
    ensures said { result ≡ heard bytes.now }
    ensures room { HasRoom (length bytes.now) result }
{
    if bytes.starts_with(&SIGNATURE) {
        return hear_binary(bytes);
    }
    if bytes.starts_with(&PROXY) {
        return hear_line(bytes);
    }
    if SIGNATURE.starts_with(bytes) || PROXY.starts_with(bytes) {
        return Heard::Unfinished;
    }
    Heard::Wrong
}
