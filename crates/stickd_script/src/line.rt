//! A line of a script, read from its bytes; `server` and `bad_lines` call `read_line`.

ghost use Rattle.std.specs.Prelude.{◌≡◌, ◌<◌, ◌^◌, option_map, IfSome};
ghost use Rattle.base_lines.specs.Words.{words_left};
ghost use Rattle.stickd_script.specs.Script.{close_of, id_of, line_of, moment_of, open_of, port_of};
ghost use Rattle.stickd_script.specs.Seen.{IsTimely, seen};

use base_clock::MAX_MOMENT;
use base_lines::{Blanks, Words, read_number};

/// What a line is.
#[derive(Clone, Copy)]
pub enum Line<'a> {
    Empty,
    Bad,
    /// Commands at a moment in ms.
    Commands(u64, &'a [u8]),
    /// A connection opens, from an address and a port.
    Open {
        moment: u64,
        id: u32,
        address: &'a [u8],
        port: u16,
    },
    /// A connection closes, after so many bytes from its client and to it.
    Close {
        moment: u64,
        id: u32,
        bytes_in: u64,
        bytes_out: u64,
    },
}

fn read_moment(word: &[u8]) -> Option<u64>
    ensures moment { result ≡ moment_of word.now }
    ensures bound { IfSome result (λ moment. moment < 2 ^ 62) }
{
    let moment = read_number(word)?;
    if moment > MAX_MOMENT {
        return None;
    }
    Some(moment)
}

fn read_id(word: &[u8]) -> Option<u32>
    ensures { result ≡ id_of word.now }
{
    u32::try_from(read_number(word)?).ok()
}

fn read_port(word: &[u8]) -> Option<u16>
    ensures { result ≡ port_of word.now }
{
    u16::try_from(read_number(word)?).ok()
}

/// Reads ID ADDRESS PORT, and leaves the address a text.
fn read_open(moment: u64, mut rest: Words<'_>) -> Line<'_>
    requires { moment < 2 ^ 62 }
    ensures line { seen result ≡ open_of moment (words_left rest.entry) }
    ensures timely { IsTimely result }
{
    let (Some(id), Some(address), Some(port)) = (rest.next(), rest.next(), rest.next()) else {
        return Line::Bad;
    };
    if rest.next().is_some() {
        return Line::Bad;
    }
    match (read_id(id), read_port(port)) {
        (Some(id), Some(port)) => Line::Open {
            moment,
            id,
            address,
            port,
        },
        _ => Line::Bad,
    }
}

/// Reads ID IN OUT.
fn read_close(moment: u64, mut rest: Words<'_>) -> Line<'_>
    requires { moment < 2 ^ 62 }
    ensures line { seen result ≡ close_of moment (words_left rest.entry) }
    ensures timely { IsTimely result }
{
    let (Some(id), Some(bytes_in), Some(bytes_out)) = (rest.next(), rest.next(), rest.next()) else {
        return Line::Bad;
    };
    if rest.next().is_some() {
        return Line::Bad;
    }
    match (read_id(id), read_number(bytes_in), read_number(bytes_out)) {
        (Some(id), Some(bytes_in), Some(bytes_out)) => Line::Close {
            moment,
            id,
            bytes_in,
            bytes_out,
        },
        _ => Line::Bad,
    }
}

/// Reads a line. One that is too long is a bad one.
pub fn read_line(line: Option<&[u8]>) -> Line<'_>
    ensures line { seen result ≡ line_of (option_map (λ bytes. bytes.now) line.entry) }
    ensures timely { IsTimely result }
{
    let Some(line) = line else {
        return Line::Bad;
    };
    if line.is_empty() {
        return Line::Empty;
    }
    let mut rest = Words::new(line, Blanks::Spaces);
    let Some(moment) = rest.next() else {
        return Line::Bad;
    };
    let Some(verb) = rest.next() else {
        return Line::Bad;
    };
    let Some(moment) = read_moment(moment) else {
        return Line::Bad;
    };
    if verb == b"cmd".as_slice() {
        return Line::Commands(moment, rest.rest());
    }
    if verb == b"open".as_slice() {
        return read_open(moment, rest);
    }
    if verb == b"close".as_slice() {
        return read_close(moment, rest);
    }
    Line::Bad
}
