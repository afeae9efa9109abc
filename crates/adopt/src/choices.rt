//! Which frontend of a file is served, and by which server; `adoption` makes its plan by it.

ghost use Rattle.std.specs.Prelude.{◌≡◌, IfOk};

use crate::headers::find_proxies;
use crate::lexer::SourceLine;
use crate::masks::shared_mask;
use crate::plan::{PatternFile, Plan, RuleAt, Track, Wishes, begins};
use crate::rules::{rules_of, track_of};
use crate::sections::{Kind, Section, read_sections};
use crate::texts::{is_word, word_at};
use crate::waits::asks_entry;
use base_sequence::NoMemory;
use std::alloc::Global;

/// How much a section speaks for being served: 0 where it can't be.
fn rank(section: &Section) -> u8 {
    if !section.has_frontend() || section.is_off || !section.has_bind {
        return 0;
    }
    if !section.is_http {
        return 3;
    }
    if section.kind == Kind::Listen && !section.has_server {
        1
    } else {
        2
    }
}

/// The frontend that is wanted, or else the first that speaks most for itself.
fn choose_frontend(sections: &[Section], wanted: Option<&[u8]>) -> Option<usize> {
    let mut best = 0u8;
    let mut chosen = None;
    for (place, section) in sections.iter().enumerate() {
        if let Some(name) = wanted
            && section.name.as_slice() != name
        {
            continue;
        }
        if rank(section) > best {
            best = rank(section);
            chosen = Some(place);
        }
    }
    chosen
}

/// The section of this name with a backend.
fn backend_named(sections: &[Section], name: &[u8]) -> Option<usize> {
    for (place, section) in sections.iter().enumerate() {
        if section.has_backend() && section.name.as_slice() == name {
            return Some(place);
        }
    }
    None
}

/// The first `use_backend` without a condition in a section.
fn unconditional_use(plan: &Plan, place: usize) -> Option<usize> {
    let section = plan.section(place)?;
    for number in section.first..section.end {
        let words = plan.words(number);
        if begins(words, "use_backend", "") && words.len() == 2 {
            return Some(number);
        }
    }
    None
}

/// The line that names a frontend's backend.
fn naming_line(plan: &Plan, frontend: usize) -> Option<usize> {
    match unconditional_use(plan, frontend) {
        Some(line) => Some(line),
        None => plan.effective(frontend, "default_backend", ""),
    }
}

/// Whether a section has a server.
fn has_server(plan: &Plan, place: usize) -> bool {
    match plan.section(place) {
        Some(section) => section.has_server,
        None => false,
    }
}

/// The line that names the section whose server a frontend has, if it has none itself.
fn names_backend(plan: &Plan, frontend: Option<usize>) -> Option<usize> {
    let frontend = frontend?;
    if has_server(plan, frontend) {
        return None;
    }
    naming_line(plan, frontend)
}

/// The section whose server a frontend has, which this line names.
fn choose_backend(plan: &Plan, frontend: Option<usize>, line: Option<usize>) -> Option<usize> {
    match line {
        Some(line) => backend_named(plan.sections.as_slice(), word_at(plan.words(line), 1)),
        None => frontend,
    }
}

/// Whether a table stores `gpc_rate`.
fn stores_rates(lines: &[SourceLine]) -> bool {
    for line in lines {
        if !begins(line.words.as_slice(), "stick-table", "") {
            continue;
        }
        for word in &line.words {
            if has_rate(word.as_slice()) {
                return true;
            }
        }
    }
    false
}

/// Whether `gpc_rate(` stands in a word.
fn has_rate(word: &[u8]) -> bool {
    word.windows(9).any(|window| is_word(window, "gpc_rate("))
}

/// The rules that run for the frontend.
fn find_rules(alloc: Global, plan: &Plan) -> Result<Vec<RuleAt>, NoMemory> {
    match plan.frontend {
        Some(frontend) => rules_of(
            alloc,
            plan.lines.as_slice(),
            plan.sections.as_slice(),
            frontend,
            plan.backend,
        ),
        None => Ok(Vec::new(alloc)),
    }
}

/// What rules track.
fn find_tracks(alloc: Global, plan: &Plan, rules: &[RuleAt]) -> Result<Vec<Track>, NoMemory> {
    let mut tracks = Vec::new(alloc);
    let mut is_late = false;
    for rule in rules {
        let words = plan.words(rule.line);
        is_late = is_late || asks_entry(plan.lines.as_slice(), words);
        if let Some(track) = track_of(plan.sections.as_slice(), words, rule.origin) {
            let is_sure = track.is_sure && !is_late;
            tracks.push(Track { is_sure, ..track })?;
        }
    }
    Ok(tracks)
}

/// The slot by which all connections are counted together, where a rule asks for that.
fn slot_for_all(plan: &Plan, tracks: &[Track]) -> Option<u8> {
    if asks_all(plan, plan.frontend?) {
        return free_slot(tracks);
    }
    None
}

/// Whether a word asks how many connections a frontend has.
fn asks_of_frontend(word: &[u8]) -> bool {
    word.starts_with(b"fe_conn".as_slice()) || word.starts_with(b"fe_sess_rate".as_slice())
}

/// Whether a rule or an ACL of the frontend asks how many connections it has.
fn asks_all(plan: &Plan, frontend: usize) -> bool {
    let Some(section) = plan.section(frontend) else {
        return false;
    };
    for number in section.first..section.end {
        let words = plan.words(number);
        let is_asking = begins(words, "acl", "") || begins(words, "tcp-request", "");
        if is_asking && words.iter().any(|word| asks_of_frontend(word.as_slice())) {
            return true;
        }
    }
    false
}

/// A slot that no rule tracks with, the last first.
fn free_slot(tracks: &[Track]) -> Option<u8> {
    for slot in [2u8, 1, 0] {
        if !tracks.iter().any(|track| track.slot == slot) {
            return Some(slot);
        }
    }
    None
}

/// What is served of a file, as is wished.
pub(crate) fn make_plan(
    alloc: Global,
    lines: Vec<SourceLine>,
    files: Vec<PatternFile>,
    wishes: &Wishes,
) -> Result<Plan, NoMemory>
    // The plan has the lines of the file, and no others.
    ensures { IfOk result (λ plan. plan.lines ≡ lines) }
{
    let sections = read_sections(alloc, lines.as_slice())?;
    let wanted = match &wishes.frontend {
        Some(name) => Some(name.as_slice()),
        None => None,
    };
    let frontend = choose_frontend(sections.as_slice(), wanted);
    let stores_rates = stores_rates(lines.as_slice());
    let mut plan = Plan {
        lines,
        sections,
        frontend,
        backend: None,
        names_backend: None,
        rules: Vec::new(alloc),
        tracks: Vec::new(alloc),
        mask: None,
        stores_rates,
        counts_all: None,
        first_server: wishes.first_server,
        files,
        proxies: Vec::new(alloc),
    };
    let line = names_backend(&plan, frontend);
    let backend = choose_backend(&plan, frontend, line);
    plan.names_backend = line;
    plan.backend = backend;
    let rules = find_rules(alloc, &plan)?;
    let tracks = find_tracks(alloc, &plan, rules.as_slice())?;
    let mask = shared_mask(alloc, &plan, rules.as_slice())?;
    let slot = slot_for_all(&plan, tracks.as_slice());
    let proxies = find_proxies(alloc, &plan, rules.as_slice())?;
    plan.rules = rules;
    plan.tracks = tracks;
    plan.mask = mask;
    plan.counts_all = slot;
    plan.proxies = proxies;
    Ok(plan)
}
