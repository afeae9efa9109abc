//! What becomes of the lines of a proxy other than its first and its rules; `fates` calls it.

use crate::actions::add_words;
use crate::addresses::endpoints_of;
use crate::criteria::{behind_two, convert_criterion};
use crate::fates::{Fate, FateKind, left, of_left};
use crate::keywords::{Told, left_of};
use crate::lexer::SourceLine;
use crate::listeners::{convert_bind, first_bind, further_binds, further_loss};
use crate::manual::{OPTIONS, PROXY, TIMEOUTS};
use crate::plan::{Plan, begins};
use crate::reasons::{Refusal, Why};
use crate::roles::{Role, has_rules_of, role_of};
use crate::rule_lines::of_rule;
use crate::rules::{is_waiting, phase_of};
use crate::sections::Section;
use crate::servers::{convert_server, default_loss, has_queue, kept_server, servers_of};
use crate::standing::{of_converted, two_words, written};
use crate::tables::convert_table;
use crate::texts::{is_word, word_at};
use crate::waits::is_asked;
use base_sequence::NoMemory;
use rule_words::read_time;
use std::alloc::Global;

/// What becomes of an ACL.
fn of_acl(alloc: Global, plan: &Plan, origin: usize, line: &SourceLine) -> Result<Fate, NoMemory> {
    let words = line.words.as_slice();
    let criterion = match convert_criterion(alloc, plan, origin, behind_two(words)) {
        Ok(criterion) => criterion,
        Err(Refusal::OutOfMemory) => return Err(NoMemory),
        Err(Refusal::Lost(_)) => return left(alloc, FateKind::Harmless, Why::AclOfLostRule),
    };
    let mut converted = two_words(alloc, "acl", word_at(words, 1))?;
    add_words(alloc, &mut converted, criterion.as_slice())?;
    written(alloc, line, converted.as_slice(), None)
}

/// What becomes of a line `bind`.
fn of_bind(alloc: Global, plan: &Plan, number: usize, line: &SourceLine) -> Result<Fate, NoMemory> {
    let words = line.words.as_slice();
    if first_bind(plan) == Some(number) {
        let binds = further_binds(alloc, plan)?;
        let others = binds.iter().filter(|bind| bind.line == number).count();
        return of_converted(alloc, line, convert_bind(alloc, plan, words, others));
    }
    // Where options stand for the line, they are told in place of this.
    let why = match endpoints_of(alloc, word_at(words, 1)) {
        Ok(_) => further_loss(plan, words).unwrap_or(Why::ManyListeners),
        Err(Refusal::OutOfMemory) => return Err(NoMemory),
        Err(Refusal::Lost(why)) => why,
    };
    left(alloc, FateKind::Lost, why)
}

/// What becomes of a line that names a backend.
fn of_backend_name(
    alloc: Global,
    plan: &Plan,
    number: usize,
    line: &SourceLine,
) -> Result<Fate, NoMemory> {
    if plan.names_backend != Some(number) {
        let is_default = begins(line.words.as_slice(), "default_backend", "");
        let kind = if is_default {
            FateKind::Harmless
        } else {
            FateKind::Lost
        };
        return left(
            alloc,
            kind,
            if is_default {
                Why::Overruled
            } else {
                Why::ServerChoice
            },
        );
    }
    let Some(backend) = plan.backend else {
        return left(alloc, FateKind::Lost, Why::ServerChoice);
    };
    let words = two_words(alloc, "default_backend", plan.new_name(backend))?;
    written(alloc, line, words.as_slice(), None)
}

/// What becomes of a line of the frontend that only a frontend has. None where it is another line.
fn of_frontend(
    alloc: Global,
    plan: &Plan,
    place: usize,
    number: usize,
    line: &SourceLine,
) -> Result<Option<Fate>, NoMemory> {
    let words = line.words.as_slice();
    let keyword = word_at(words, 0);
    if is_word(keyword, "bind") {
        return Ok(Some(of_bind(alloc, plan, number, line)?));
    }
    if is_word(keyword, "acl") {
        return Ok(Some(of_acl(alloc, plan, place, line)?));
    }
    if is_waiting(words) {
        return Ok(Some(left(alloc, FateKind::Harmless, Why::InspectDelay)?));
    }
    if phase_of(words).is_some() {
        return Ok(Some(of_rule(alloc, plan, number, line)?));
    }
    if is_word(keyword, "default_backend") || is_word(keyword, "use_backend") {
        return Ok(Some(of_backend_name(alloc, plan, number, line)?));
    }
    Ok(None)
}

/// What becomes of a server.
fn of_server(
    alloc: Global,
    plan: &Plan,
    number: usize,
    line: &SourceLine,
) -> Result<Fate, NoMemory> {
    let words = line.words.as_slice();
    if kept_server(plan) == Some(number) {
        return of_converted(alloc, line, convert_server(alloc, plan, words));
    }
    let (count, first) = servers_of(plan);
    if count <= 1 && first.is_some() {
        return left(alloc, FateKind::Harmless, Why::OneServer);
    }
    left(alloc, FateKind::Lost, Why::OtherServer)
}

/// What becomes of an ACL of the backend: it stands in the frontend where rules of the backend do.
fn of_backend_acl(alloc: Global, plan: &Plan) -> Result<Fate, NoMemory> {
    match plan.backend {
        Some(backend) if has_rules_of(plan, backend) => {
            left(alloc, FateKind::Moved, Why::MovedBelow)
        }
        _ => left(alloc, FateKind::Harmless, Why::NothingToSay),
    }
}

/// What becomes of a line of the backend that only a backend has. None where it is another line.
fn of_backend(
    alloc: Global,
    plan: &Plan,
    number: usize,
    line: &SourceLine,
) -> Result<Option<Fate>, NoMemory> {
    let words = line.words.as_slice();
    let keyword = word_at(words, 0);
    if is_word(keyword, "server") {
        return Ok(Some(of_server(alloc, plan, number, line)?));
    }
    if is_word(keyword, "dispatch") {
        return Ok(Some(of_converted(alloc, line, convert_server(alloc, plan, words))?));
    }
    if is_word(keyword, "default-server") {
        return Ok(Some(match default_loss(words) {
            Some(why) => left(alloc, FateKind::Lost, why)?,
            None => left(alloc, FateKind::Harmless, Why::NoChecks)?,
        }));
    }
    if is_waiting(words) {
        return Ok(Some(left(alloc, FateKind::Harmless, Why::InspectDelay)?));
    }
    if phase_of(words).is_some() {
        return Ok(Some(of_rule(alloc, plan, number, line)?));
    }
    if is_word(keyword, "acl") {
        return Ok(Some(of_backend_acl(alloc, plan)?));
    }
    if is_word(keyword, "use_backend") || is_word(keyword, "default_backend") {
        return Ok(Some(left(alloc, FateKind::Harmless, Why::Overruled)?));
    }
    if is_word(keyword, "bind") {
        return Ok(Some(left(alloc, FateKind::Harmless, Why::NotServed)?));
    }
    Ok(None)
}

/// What becomes of a line that says which protocol is spoken.
fn of_mode(alloc: Global, line: &SourceLine) -> Result<Fate, NoMemory> {
    if !is_word(word_at(line.words.as_slice(), 1), "tcp") {
        return left(alloc, FateKind::Lost, Why::HttpMode);
    }
    let two = two_words(alloc, "mode", b"tcp")?;
    written(alloc, line, two.as_slice(), None)
}

/// Why a line of a time is left out for which no option stands.
fn timeout_left(plan: &Plan, words: &[Vec<u8>]) -> Told {
    let told = left_of(word_at(words, 1), &TIMEOUTS);
    let why = match told.why {
        Why::NoQueue if has_queue(plan) => {
            return Told {
                why: Why::ServerPlaces,
                matters: true,
            };
        }
        Why::Overruled if read_time(word_at(words, 2)).is_err() => Why::NeverEnds,
        why => why,
    };
    Told {
        why,
        matters: told.matters,
    }
}

/// Why an option is left out.
fn option_left(plan: &Plan, name: &[u8]) -> Told {
    if is_word(name, "contstats") && is_asked(plan, b"bytes_") {
        return Told {
            why: Why::BytesAtEnd,
            matters: true,
        };
    }
    left_of(name, &OPTIONS)
}

/// Why a proxy's line is left out that stickd's language hasn't.
pub(crate) fn unlike(plan: &Plan, is_http: bool, words: &[Vec<u8>]) -> Told {
    let keyword = word_at(words, 0);
    let told = if is_word(keyword, "option") {
        option_left(plan, word_at(words, 1))
    } else if is_word(keyword, "timeout") {
        timeout_left(plan, words)
    } else {
        left_of(keyword, &PROXY)
    };
    if is_http && matches!(told.why, Why::NeedsHttp) {
        return Told {
            why: Why::HttpMode,
            matters: true,
        };
    }
    told
}

/// What becomes of a line that any proxy may have.
fn of_any(
    alloc: Global,
    plan: &Plan,
    section: &Section,
    line: &SourceLine,
) -> Result<Fate, NoMemory> {
    let words = line.words.as_slice();
    let keyword = word_at(words, 0);
    if is_word(keyword, "mode") {
        return of_mode(alloc, line);
    }
    if is_word(keyword, "stick-table") {
        return of_converted(alloc, line, convert_table(alloc, words));
    }
    of_left(alloc, unlike(plan, section.is_http, words))
}

/// What becomes of a line of a proxy.
pub(crate) fn of_proxy_line(
    alloc: Global,
    plan: &Plan,
    place: usize,
    number: usize,
    line: &SourceLine,
) -> Result<Fate, NoMemory> {
    let Some(section) = plan.section(place) else {
        return left(alloc, FateKind::Harmless, Why::NotServed);
    };
    let role = role_of(plan, place);
    if role == Role::Table && begins(line.words.as_slice(), "stick-table", "") {
        return of_converted(alloc, line, convert_table(alloc, line.words.as_slice()));
    }
    if role == Role::Table {
        return left(alloc, FateKind::Harmless, Why::TableOnly);
    }
    if role == Role::None {
        return left(alloc, FateKind::Harmless, Why::NotServed);
    }
    if (role == Role::Frontend || role == Role::Both)
        && let Some(fate) = of_frontend(alloc, plan, place, number, line)?
    {
        return Ok(fate);
    }
    if (role == Role::Backend || role == Role::Both)
        && let Some(fate) = of_backend(alloc, plan, number, line)?
    {
        return Ok(fate);
    }
    of_any(alloc, plan, section, line)
}
