//! Lines `server`, where accepted connections go, in stickd's spelling; `proxy_lines` converts by it, and `options` asks which is
//! kept.

use crate::addresses::server_endpoint;
use crate::headers::server_header_loss;
use crate::keywords::options_loss;
use crate::listeners::{has_other_port, listener_port, option_value};
use crate::manual::{SERVER_FLAGS, SERVER_VALUES};
use crate::plan::{Plan, begins};
use crate::reasons::{Refusal, Why};
use crate::rules::Converted;
use crate::texts::{Words, copy_text, is_word, text_of, word_at};
use std::alloc::Global;

fn has_word(words: &[Vec<u8>], wanted: &str) -> bool {
    for word in words {
        if is_word(word.as_slice(), wanted) {
            return true;
        }
    }
    false
}

/// Whether a line is of a server that HAProxy uses.
fn is_server(words: &[Vec<u8>]) -> bool {
    begins(words, "server", "") && !has_word(words, "disabled")
}

/// How many servers the served backend has, and which line has the one that comes first: the first that is no backup.
pub(crate) fn servers_of(plan: &Plan) -> (usize, Option<usize>) {
    let Some(section) = plan.backend.and_then(|place| plan.section(place)) else {
        return (0, None);
    };
    let mut count = 0usize;
    let mut first = None;
    let mut backup = None;
    for number in section.first..section.end {
        let words = plan.words(number);
        if !is_server(words) {
            continue;
        }
        count = count.saturating_add(1);
        if first.is_none() && !has_word(words, "backup") {
            first = Some(number);
        }
        if backup.is_none() {
            backup = Some(number);
        }
    }
    (count, first.or(backup))
}

/// The line of the server that is kept: the only one, or the first where that is wished.
pub(crate) fn kept_server(plan: &Plan) -> Option<usize> {
    let (count, first) = servers_of(plan);
    if count <= 1 || plan.first_server {
        first
    } else {
        None
    }
}

/// Whether a line of the file limits a server's connections, so that HAProxy lets others wait.
pub(crate) fn has_queue(plan: &Plan) -> bool {
    for line in &plan.lines {
        let words = line.words.as_slice();
        let is_server = begins(words, "server", "") || begins(words, "default-server", "");
        if is_server && (has_word(words, "maxconn") || has_word(words, "minconn")) {
            return true;
        }
    }
    false
}

/// What the options of a server from a place on lose that changes what is served. HAProxy sends nobody to one whose weight is 0.
fn server_loss(words: &[Vec<u8>], from: usize) -> Option<Why> {
    if option_value(words, "weight").is_some_and(|weight| is_word(weight, "0")) {
        return Some(Why::ServerWords);
    }
    match options_loss(words, from, &SERVER_VALUES, &SERVER_FLAGS) {
        Some(why) => Some(why),
        None => server_header_loss(words, from),
    }
}

/// What a line `default-server` loses of the servers below it: options stand for a server's own line alone.
pub(crate) fn default_loss(words: &[Vec<u8>]) -> Option<Why> {
    server_loss(words, 1)
}

/// A server's line in stickd's spelling.
pub(crate) fn convert_server(
    alloc: Global,
    plan: &Plan,
    words: &[Vec<u8>],
) -> Result<Converted, Refusal> {
    let is_dispatch = begins(words, "dispatch", "");
    let name = if is_dispatch {
        b"dispatch"
    } else {
        word_at(words, 1)
    };
    let address = if is_dispatch {
        word_at(words, 1)
    } else {
        word_at(words, 2)
    };
    let endpoint = server_endpoint(alloc, address, listener_port(alloc, plan))?;
    let has_own_port = match server_endpoint(alloc, address, None) {
        Ok(_) => true,
        Err(Refusal::OutOfMemory) => return Err(Refusal::OutOfMemory),
        Err(Refusal::Lost(_)) => false,
    };
    let mut altered = server_loss(words, if is_dispatch { 2 } else { 3 });
    if altered.is_none() && !has_own_port && has_other_port(alloc, plan)? {
        altered = Some(Why::OnePort);
    }
    let mut written: Words = Vec::new(alloc);
    written.push(text_of(alloc, "server")?)?;
    written.push(copy_text(alloc, name)?)?;
    written.push(endpoint)?;
    Ok(Converted {
        words: written,
        altered,
    })
}
