//! What `stickd check --explain` says of a fault, and of each line that is read past; `read_file` prints it.

use crate::habits::advice_on;
use crate::hints::{Guess, Hint, hint_of};
use base_lines::{Blanks, Words};
use rule_config::ConfigFault;
use rule_model::{Fault, ReadError};
use rule_words::{Lines, before_comment, is_plain, next_or_empty};
use std::fmt::{self, Display, Formatter, Write};
use std::{io, str};

/// A line of a configuration, as it is shown: on a line of its own, whatever its bytes are.
#[derive(Clone, Copy)]
struct Shown<'a>(&'a [u8]);

impl Display for Shown<'_> {
    fn fmt<W: Write>(&self, f: &mut Formatter<W>) -> fmt::Result {
        match str::from_utf8(self.0) {
            Ok(text) => write_text(text, f),
            Err(_) => write_bytes(self.0, f),
        }
    }
}

/// Writes a text; control characters but tabs as their numbers.
fn write_text<W: Write>(text: &str, f: &mut Formatter<W>) -> fmt::Result {
    for letter in text.chars() {
        if letter.is_control() && letter != '\t' {
            write!(f, "\\x{:02x}", letter as u32)?;
        } else {
            f.write_char(letter)?;
        }
    }
    Ok(())
}

/// Writes bytes that are no text; all but those of ASCII's signs, blanks and tabs as their numbers.
fn write_bytes<W: Write>(bytes: &[u8], f: &mut Formatter<W>) -> fmt::Result {
    for byte in bytes {
        if byte.is_ascii_graphic() || *byte == b' ' || *byte == b'\t' {
            f.write_char(char::from(*byte))?;
        } else {
            write!(f, "\\x{byte:02x}")?;
        }
    }
    Ok(())
}

/// Takes the next lines up to the one that stands behind so many others, and answers that one. None where there are fewer.
fn nth<'a>(lines: &mut Lines<'a>, others: u64) -> Option<&'a [u8]> {
    for _ in 0..others {
        if lines.next().is_none() {
            return None;
        }
    }
    lines.next()
}

/// The first words of a line, of which there may be none.
fn first_words(line: &[u8]) -> (&[u8], &[u8]) {
    let mut words = Words::new(before_comment(line), Blanks::SpacesAndTabs);
    let first = next_or_empty(&mut words);
    (first, next_or_empty(&mut words))
}

impl Display for Guess<'_> {
    fn fmt<W: Write>(&self, f: &mut Formatter<W>) -> fmt::Result {
        let (before, word, behind) = (Shown(self.before), Shown(self.word), Shown(self.behind));
        write!(f, "{before}{word}{behind}")
    }
}

/// Says which word is at fault, and what may stand in its place.
fn print_hint<R: Eprint>(rt: &R, hint: Hint<'_>) -> io::Result<()> {
    let expected = hint.suspect.expected;
    let word = hint.suspect.word;
    if word.is_empty() {
        return eprintln!(rt; "  At its end: {expected}.");
    }
    let shown = Shown(word);
    match hint.guess {
        Some(guess) => eprintln!(rt; "  At '{shown}': {expected}. Did you mean '{guess}'?")?,
        None => eprintln!(rt; "  At '{shown}': {expected}.")?,
    }
    match advice_on(expected, word) {
        Some(advice) => eprintln!(rt; "  {advice}"),
        None => Ok(()),
    }
}

/// Says which word of a line is at fault, where that is known.
fn explain_word<R: Eprint + AllocGlobal>(
    rt: &R,
    declaring: &[u8],
    number: u64,
    line: &[u8],
    fault: Fault,
) -> io::Result<()> {
    match hint_of(rt.alloc(), declaring, number, line, fault) {
        Ok(Some(hint)) => print_hint(rt, hint),
        Ok(None) => Ok(()),
        Err(_) => eprintln!(rt; "  There was no memory to look for the word at fault."),
    }
}

/// Says below a fault what its line is, which word is at fault, and what commonly causes that fault there.
/// Which names the file declares is told by `declaring`: the text, in which lines with faults may be blank.
pub fn explain_fault<R: Eprint + AllocGlobal>(
    rt: &R,
    text: &[u8],
    declaring: &[u8],
    fault: ConfigFault,
) -> io::Result<()> {
    let number = fault.line;
    // A file without lines has a fault where memory is short.
    let line = match number.checked_sub(1) {
        Some(others) => nth(&mut Lines::new(text), others).unwrap_or(b""),
        None => b"",
    };
    let shown = Shown(line);
    let cause = cause_of(fault.kind, line);
    eprintln!(rt; "  {number} | {shown}")?;
    if let ReadError::Wrong(kind) = fault.kind {
        explain_word(rt, declaring, number, line, kind)?;
    }
    eprintln!(rt; "  {cause}")
}

/// Prints a warning for each line that is read past, what the line is, and what is lost. The numbers are in order.
pub fn explain_warnings<R: Eprint>(rt: &R, text: &[u8], numbers: &[u64]) -> io::Result<()> {
    let mut lines = Lines::new(text);
    let mut taken = 0;
    for number in numbers {
        let others = number.saturating_sub(1).saturating_sub(taken);
        let line = nth(&mut lines, others).unwrap_or(b"");
        taken = *number;
        let shown = Shown(line);
        let loss = loss_of(line);
        eprintln!(rt; "stickd: line {number}: read past")?;
        eprintln!(rt; "  {number} | {shown}")?;
        eprintln!(rt; "  {loss}")?;
    }
    Ok(())
}

/// What commonly causes a fault in such a line.
fn cause_of(kind: ReadError, line: &[u8]) -> &'static str {
    let fault = match kind {
        ReadError::OutOfMemory => {
            return "There was no memory for what this line says: the file is read as a whole, so give the program more.";
        }
        ReadError::Wrong(fault) => fault,
    };
    let (word, _) = first_words(line);
    match fault {
        Fault::UnknownKeyword => unknown_keyword(line),
        Fault::BadNumber => bad_number(word),
        Fault::BadSize => {
            "A table needs 'size N', 1 to 1g, a decimal number with k, m or g for 2^10, 2^20 or 2^30 behind it."
        }
        Fault::UnknownType => {
            "A table needs 'type ip', 'ipv6', 'integer', 'string' or 'binary'; a datum of 'store' stands once, a rate with its period, as conn_rate(10s), an array with its count, as gpc(2), and in place of gpc0 and gpc1, or of gpt0; and none counts HTTP requests."
        }
        Fault::UnknownTable => unknown_table(word),
        Fault::SecondName => second_name(word),
        Fault::BadCondition => {
            "A condition is '{ CRITERION VALUE.. }' with each brace a word of its own, or an ACL's name; values are compared by eq, ge, gt, le or lt, and there are no flags."
        }
        Fault::UnknownAcl => {
            "An ACL is declared on a line above, in the same section; TRUE and FALSE alone are there without that, and a brace that is joined to a word counts as a name."
        }
        Fault::SecondServer => "A section has one server: nothing is balanced over several.",
        Fault::ModeHttp => "TCP alone is carried: 'mode tcp', or no such line.",
        Fault::NotUtf8 =>
            "A byte is no text, mostly since the file was written in another encoding, as Latin-1.",
    }
}

/// Why a line isn't known.
fn unknown_keyword(line: &[u8]) -> &'static str {
    let (word, second) = first_words(line);
    if !is_plain(line) {
        return "A quote, an apostrophe, a backslash or '$' means something to HAProxy, and nothing here: write the words without it.";
    }
    if word == b"tcp-request".as_slice() {
        return tcp_request_unknown(second);
    }
    if word == b"bind".as_slice() {
        return "One 'bind ADDRESS:PORT' stands in a frontend or listen section, with an IP address, '*' or none, a port of 1 to 65535, and nothing behind it.";
    }
    if word == b"server".as_slice() {
        return "'server NAME ADDRESS:PORT' stands in a backend or listen section, with an IP address and no host name.";
    }
    if word == b"default_backend".as_slice() {
        return "One 'default_backend NAME' stands in a frontend or listen section, with nothing behind it.";
    }
    if word == b"stick-table".as_slice() {
        return "A table has type, size, expire and nopurge once each, and store; it is told to no peers, and written to no other table.";
    }
    if word == b"acl".as_slice() {
        return "'acl NAME CRITERION VALUE..' stands in a frontend or listen section, its name made of letters, digits and '-_.:'.";
    }
    if word == b"use_backend".as_slice() {
        return "A section has one server, or one default_backend: there is no choice among backends.";
    }
    section_unknown(word)
}

/// Why a `tcp-request` line isn't known, by its second word.
fn tcp_request_unknown(second: &[u8]) -> &'static str {
    if second == b"connection".as_slice() {
        return "The actions are accept, reject, track-sc0 to track-sc2 KEY, sc-inc-gpc0(n), sc-inc-gpc1(n), sc-set-gpt0(n) V, sc-inc-gpc(i,n) and sc-set-gpt(i,n) V, in a frontend or listen section, with 'if' or 'unless' behind them.";
    }
    "Rules are of connections alone, 'tcp-request connection': their contents and sessions aren't looked at."
}

/// Why a line isn't known that begins a section, or with any other word.
fn section_unknown(word: &[u8]) -> &'static str {
    if word == b"frontend".as_slice()
        || word == b"backend".as_slice()
        || word == b"listen".as_slice()
    {
        return "A section has a name made of letters, digits and '-_.:', and nothing behind it.";
    }
    if word == b"mode".as_slice() {
        return "The mode is 'mode tcp', with nothing behind it.";
    }
    "The line stands before the first section, or in one where it has no place; or it is of HTTP, TLS, health checks or peers, which aren't here."
}

/// Why a number or a time is bad, in a line that begins so.
fn bad_number(word: &[u8]) -> &'static str {
    if word == b"stick-table".as_slice() {
        return "A time is 1 ms to 2147483647 ms, which is less than 25 days, a decimal number with us, ms, s, m, h or d behind it; the length of a string or a binary key is 1 to 1024, and an array has 1 to 100 elements.";
    }
    "The slot of an action is 0 to 2, as in sc-inc-gpc0(0), an element of an array 0 to 99, as the first number of sc-inc-gpc(1,0), and a value at most 4294967295."
}

/// Why a table or a backend isn't known, in a line that begins so.
fn unknown_table(word: &[u8]) -> &'static str {
    if word == b"default_backend".as_slice() {
        return "No backend or listen section of the file has this name.";
    }
    "The section has no stick-table of its own, or the one that is named isn't a section with a stick-table."
}

/// What there is a second time, in a line that begins so.
fn second_name(word: &[u8]) -> &'static str {
    if word == b"stick-table".as_slice() {
        return "A section has one table, named after it: give each further table a backend section of its own, and name it behind 'table'.";
    }
    "Frontends, backends and listen sections have names of their own: another one above has this name."
}

/// What is lost as a line is read past.
fn loss_of(line: &[u8]) -> &'static str {
    let (word, second) = first_words(line);
    if word == b"timeout".as_slice() {
        return lost_timeout(second);
    }
    if word == b"global".as_slice() {
        return "Its lines are lost: for maxconn and nbthread 'stickd run' has --connections and --threads; users and limits are the system's.";
    }
    if word == b"defaults".as_slice() {
        return "Its lines are lost, for each section: for maxconn, timeout connect, client and server 'stickd run' has --connections, --timeout-connect, --timeout-client and --timeout-server.";
    }
    if word == b"maxconn".as_slice() {
        return "'stickd run --connections N' stands for it, for all connections together; without that it is 10000.";
    }
    if word == b"balance".as_slice() {
        return "Nothing is lost: a section has one server.";
    }
    if word == b"log".as_slice() {
        return "No connection is logged; what 'stickd run' says as it starts and ends is on its standard error.";
    }
    if word == b"option".as_slice() {
        return "The option isn't kept: no connection is logged, no server is checked, and sockets are as the system makes them.";
    }
    "The words behind the address are lost: the server isn't checked, weighted or limited, nor told the client's address."
}

/// What is lost of a timeout.
fn lost_timeout(name: &[u8]) -> &'static str {
    if name == b"connect".as_slice() {
        return "'stickd run --timeout-connect TIME' stands for it; without that it is 5s.";
    }
    if name == b"client".as_slice() {
        return "'stickd run --timeout-client TIME' stands for it; without that a client may be silent for ever.";
    }
    if name == b"server".as_slice() {
        return "'stickd run --timeout-server TIME' stands for it; without that a server may be silent for ever.";
    }
    "No option stands for it: of all timeouts there are connect, client and server."
}
