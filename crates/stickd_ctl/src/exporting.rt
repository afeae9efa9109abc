//! `stickd ctl export`: the entries of a table, as other programs take them; `asking` calls `export_table`.

use crate::client::{BAD_WORDS, DONE, FAILED, Peer, say_no_memory, show};
use crate::export_form::{ExportForm, can_filter, read_export_form};
use crate::exported::{can_export, count_left_out, push_export};
use crate::saving::{Unsaved, asked, is_name};
use crate::show_table::show_command;
use base_sequence::NoMemory;
use std::alloc::Global;
use std::io;
use std::net::Net;
use std::time::Clock;

/// The first of some words that can't stand in a filter.
fn first_no_filter<'a>(words: &[&'a str]) -> Option<&'a str> {
    for word in words {
        if !can_filter(word.as_bytes()) {
            return Some(word);
        }
    }
    None
}

/// The command that shows the entries of a table that pass filters.
fn filtered_command(alloc: Global, table: &[u8], filters: &[&str]) -> Result<Vec<u8>, NoMemory> {
    let mut command = show_command(alloc, table)?;
    for word in filters {
        command.push(b' ')?;
        command.extend_from_slice(word.as_bytes())?;
    }
    Ok(command)
}

/// The form of a word of the command line. None where it is none, which is then said.
fn form_named<R: Eprint>(rt: &R, word: Option<&str>) -> io::Result<Option<ExportForm>> {
    let Some(word) = word else {
        eprintln!(rt; "stickd: export wants --as, which names a form: csv, json, nft or ipset")?;
        return Ok(None);
    };
    let form = read_export_form(word.as_bytes());
    if form.is_none() {
        eprintln!(rt; "stickd: '{word}' is no form for --as: it is csv, json, nft or ipset")?;
    }
    Ok(form)
}

/// What a table's entries are exported as, and how many of them it leaves out.
fn exported<R: Net + Clock + Eprint + AllocGlobal>(
    rt: &R,
    peer: Peer<'_>,
    form: ExportForm,
    table: &[u8],
    filters: &[&str],
) -> Result<(Vec<u8>, u64), Unsaved> {
    let command = filtered_command(rt.alloc(), table, filters)?;
    let listing = asked(rt, peer, command.as_slice())?;
    let mut text = Vec::new(rt.alloc());
    push_export(&mut text, form, table, listing.as_slice())?;
    let count = count_left_out(form, listing.as_slice());
    Ok((text, count))
}

/// Writes the entries of a table that pass filters to standard output, as other programs take them. Answers the status: 0; 1 where
/// nobody answers, or there is no such table or datum, which is said on standard error, and nothing is written; 2 where a word can't
/// be meant. How many entries were left out is said on standard error.
pub(crate) fn export_table<R: Net + Clock + Print + Eprint + AllocGlobal>(
    rt: &R,
    peer: Peer<'_>,
    words: &[&str],
    form: Option<&str>,
) -> io::Result<u8> {
    let Some(form) = form_named(rt, form)? else {
        return Ok(BAD_WORDS);
    };
    let Some((table, filters)) = words.split_first() else {
        eprintln!(rt; "stickd: export wants the name of a table")?;
        return Ok(BAD_WORDS);
    };
    if !is_name(table.as_bytes()) {
        eprintln!(rt; "stickd: '{table}' is no table's name")?;
        return Ok(BAD_WORDS);
    }
    if let Some(word) = first_no_filter(filters) {
        eprintln!(rt; "stickd: '{word}' is no word of a filter")?;
        return Ok(BAD_WORDS);
    }
    if !can_export(form, table.as_bytes()) {
        eprintln!(rt; "stickd: '{table}' is too long for the name of a set")?;
        return Ok(FAILED);
    }
    let (text, count) = match exported(rt, peer, form, table.as_bytes(), filters) {
        Ok((text, count)) => (text, count),
        Err(Unsaved::Said(status)) => return Ok(status),
        Err(Unsaved::Memory) => return say_no_memory(rt),
        Err(Unsaved::Output(reason)) => return Err(reason),
    };
    show(rt, text.as_slice())?;
    if count > 0 {
        eprintln!(rt; "stickd: left out: {count} entries, whose keys are no addresses of hosts")?;
    }
    Ok(DONE)
}
