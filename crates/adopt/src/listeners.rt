//! Lines `bind`, where the frontend listens, in stickd's spelling; `proxy_lines` converts by it, and `options` and `servers` ask
//! it.

use crate::addresses::{endpoints_of, port_of, without_family};
use crate::headers::bind_header_loss;
use crate::keywords::options_loss;
use crate::manual::{BIND_FLAGS, BIND_VALUES};
use crate::plan::{Plan, begins};
use crate::reasons::{Refusal, Why};
use crate::rules::Converted;
use crate::texts::{Words, copy_text, is_word, text_of, word_at};
use base_sequence::NoMemory;
use std::alloc::Global;

/// How often `--bind` may be given.
const MOST_BINDS: usize = 16;

/// The first line `bind` of the frontend that has a TCP address; where none has one, the first.
pub(crate) fn first_bind(plan: &Plan) -> Option<usize> {
    let section = plan.section(plan.frontend?)?;
    let mut first = None;
    for number in section.first..section.end {
        let words = plan.words(number);
        if !begins(words, "bind", "") {
            continue;
        }
        if without_family(word_at(words, 1)).is_ok() {
            return Some(number);
        }
        if first.is_none() {
            first = Some(number);
        }
    }
    first
}

/// An address at which the frontend listens besides its first one, and the line that says so.
#[derive(Drop)]
pub(crate) struct FurtherBind {
    pub(crate) line: usize,
    pub(crate) endpoint: Vec<u8>,
}

/// Adds the addresses of a line from one on, unless there would be more than the program takes.
fn add_binds(
    alloc: Global,
    words: &[Vec<u8>],
    line: usize,
    from: usize,
    binds: &mut Vec<FurtherBind>,
) -> Result<(), NoMemory> {
    let endpoints = match endpoints_of(alloc, word_at(words, 1)) {
        Ok(endpoints) => endpoints,
        Err(Refusal::OutOfMemory) => return Err(NoMemory),
        Err(Refusal::Lost(_)) => return Ok(()),
    };
    let count = endpoints.len().saturating_sub(from);
    if binds.len().saturating_add(count) > MOST_BINDS {
        return Ok(());
    }
    for (place, endpoint) in endpoints.into_iter().enumerate() {
        if place >= from {
            binds.push(FurtherBind { line, endpoint })?;
        }
    }
    Ok(())
}

/// The addresses at which the frontend listens besides its first one: of each line all or none. None are those of a line whose
/// options change what is served, or with which there would be more than the program takes.
pub(crate) fn further_binds(alloc: Global, plan: &Plan) -> Result<Vec<FurtherBind>, NoMemory> {
    let mut binds = Vec::new(alloc);
    let Some(section) = plan.frontend.and_then(|place| plan.section(place)) else {
        return Ok(binds);
    };
    let first = first_bind(plan);
    for number in section.first..section.end {
        let words = plan.words(number);
        let is_first = first == Some(number);
        let loss = if is_first {
            bind_loss(plan, words)
        } else {
            further_loss(plan, words)
        };
        if begins(words, "bind", "") && loss.is_none() {
            let from = usize::from(is_first);
            add_binds(alloc, words, number, from, &mut binds)?;
        }
    }
    Ok(binds)
}

/// Whether the frontend listens on another port too than that of its first address.
pub(crate) fn has_other_port(alloc: Global, plan: &Plan) -> Result<bool, NoMemory> {
    let port = listener_port(alloc, plan);
    for bind in &further_binds(alloc, plan)? {
        if port_of(bind.endpoint.as_slice()) != port {
            return Ok(true);
        }
    }
    Ok(false)
}

/// The port on which the frontend listens, that of its first line.
pub(crate) fn listener_port(alloc: Global, plan: &Plan) -> Option<u64> {
    let line = first_bind(plan)?;
    match endpoints_of(alloc, word_at(plan.words(line), 1)) {
        Ok(endpoints) => port_of(word_at(endpoints.as_slice(), 0)),
        Err(_) => None,
    }
}

/// Whether a line limits the connections of its own listeners alone.
fn has_own_limit(words: &[Vec<u8>]) -> bool {
    option_value(words, "maxconn").is_some_and(|most| !is_word(most, "0"))
}

/// How many lines `bind` the frontend has.
fn count_binds(plan: &Plan) -> usize {
    let Some(section) = plan.frontend.and_then(|place| plan.section(place)) else {
        return 0;
    };
    let mut count = 0usize;
    for number in section.first..section.end {
        if begins(plan.words(number), "bind", "") {
            count = count.saturating_add(1);
        }
    }
    count
}

/// Why a line `bind` that isn't the first is left out, where options don't stand for it.
pub(crate) fn further_loss(plan: &Plan, words: &[Vec<u8>]) -> Option<Why> {
    if has_own_limit(words) {
        return Some(Why::ListenerPlaces);
    }
    bind_loss(plan, words)
}

/// What the options of a listener lose that changes what is served.
fn bind_loss(plan: &Plan, words: &[Vec<u8>]) -> Option<Why> {
    match options_loss(words, 2, &BIND_VALUES, &BIND_FLAGS) {
        Some(why) => Some(why),
        None => bind_header_loss(plan, words),
    }
}

/// The value behind an option of a line.
pub(crate) fn option_value<'a>(words: &'a [Vec<u8>], name: &str) -> Option<&'a [u8]> {
    for (place, word) in words.iter().enumerate() {
        if place >= 2 && is_word(word.as_slice(), name) {
            return Some(word_at(words, place.saturating_add(1)));
        }
    }
    None
}

/// The first line `bind` in stickd's spelling: its first address alone. Of so many of its others options take care.
pub(crate) fn convert_bind(
    alloc: Global,
    plan: &Plan,
    words: &[Vec<u8>],
    others: usize,
) -> Result<Converted, Refusal> {
    let endpoints = endpoints_of(alloc, word_at(words, 1))?;
    let first = word_at(endpoints.as_slice(), 0);
    if first.is_empty() {
        return Err(Refusal::Lost(Why::SocketAddress));
    }
    let mut written: Words = Vec::new(alloc);
    written.push(text_of(alloc, "bind")?)?;
    written.push(copy_text(alloc, first)?)?;
    let is_alone = endpoints.len() == 1 && count_binds(plan) == 1;
    let mut altered = bind_loss(plan, words);
    if altered.is_none() && endpoints.len() > others.saturating_add(1) {
        altered = Some(Why::ManyListeners);
    }
    if altered.is_none() && has_own_limit(words) && !is_alone {
        altered = Some(Why::ListenerPlaces);
    }
    Ok(Converted {
        words: written,
        altered,
    })
}
