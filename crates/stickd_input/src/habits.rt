//! Words and files that are at home elsewhere, and what to do here instead; `hints` guesses by them, `explanation` prints the advice, and
//! `read_file` says whose a file is.

use crate::expected::Expected;
use crate::suspects::is_among;
use base_lines::{Blanks, Words};
use rule_model::{Fault, ReadError};
use rule_words::{Lines, before_comment, next_or_empty};

/// Whether a line begins a section that only a file of HAProxy's has.
fn begins_foreign(line: &[u8]) -> bool {
    let mut words = Words::new(before_comment(line), Blanks::SpacesAndTabs);
    is_among(next_or_empty(&mut words), &["global", "defaults"])
}

/// Whether a text is a file of HAProxy's, by a fault that such a file has and a section that only it has.
pub(crate) fn is_foreign(kind: ReadError, text: &[u8]) -> bool {
    let is_usual = matches!(
        kind,
        ReadError::Wrong(
            Fault::UnknownKeyword
                | Fault::BadCondition
                | Fault::UnknownAcl
                | Fault::SecondServer
                | Fault::ModeHttp
        )
    );
    let mut lines = Lines::new(text);
    while let Some(line) = lines.next() {
        if begins_foreign(line) {
            return is_usual;
        }
    }
    false
}

/// The word that stands here for one of elsewhere.
pub(crate) fn meant_by(expected: Expected, word: &[u8]) -> Option<&'static [u8]> {
    match expected {
        Expected::KeyType if word == b"ipv4".as_slice() => Some(b"ip".as_slice()),
        Expected::Action if is_among(word, &["deny", "drop", "block"]) => Some(
            b"reject".as_slice(),
        ),
        Expected::Action if is_among(word, &["allow", "pass"]) => Some(b"accept".as_slice()),
        _ => None,
    }
}

/// What to do in place of what a word of elsewhere asks.
pub(crate) fn advice_on(expected: Expected, word: &[u8]) -> Option<&'static str> {
    match expected {
        Expected::Acl if is_among(word, &["and", "AND", "&&"]) => Some(
            "Terms that have to hold together stand side by side, with nothing between them.",
        ),
        Expected::Network if word.starts_with(b"-".as_slice()) => Some(
            "There are no flags: write the addresses of a file into the line, as 'stickd adopt' does.",
        ),
        Expected::Network if word.contains(&b'/') => {
            Some("A length is at most 32 of an IPv4 address, and 128 of an IPv6 one.")
        }
        Expected::BindAddress if word.contains(&b',') => {
            Some("One address stands here: 'stickd run --bind ADDRESS:PORT' has each further one.")
        }
        Expected::End if is_among(word, &["ssl", "crt", "alpn", "verify"]) => Some(
            "TLS isn't spoken: it is relayed as it is, or ends at a program before stickd.",
        ),
        Expected::OneServer => Some(
            "Keep one of them. Where several share the load, a balancer stands behind stickd.",
        ),
        _ => None,
    }
}
