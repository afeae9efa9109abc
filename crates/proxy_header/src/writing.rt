//! Headers written, for a server that is to learn who the client is.
ghost use Rattle.std.specs.Prelude.{◌≡◌};
ghost use Rattle.proxy_header.specs.Written.{written};

use crate::binary_written::written_binary;
use crate::line_written::written_line;
use crate::{Ends, Greeting};

/// The versions of the PROXY protocol.
#[derive(Clone, Copy, Debug, PartialEq, Eq)]
pub enum Version {
    /// Version 1, a line of text (section 2.1).
    One,
    /// Version 2, which is binary (section 2.2).
    Two,
}

/// The header that tells these ends, with none of it written yet.
///
/// Ends of two families are told by none: `PROXY UNKNOWN`, or the family UNSPEC. An IPv6 address in `::ffff:0:0/96` is an IPv6
/// address. Version 1 writes IPv6 addresses by RFC 5952, section 4, those in `::ffff:0:0/96` in mixed form.
pub fn write(version: Version, ends: &Ends) -> Greeting
    ensures { result ≡ written version ends.now }
{
    match version {
        Version::One => Greeting::new(written_line(ends)),
        Version::Two => Greeting::new(written_binary(ends)),
    }
}
