//! `stickd ctl`: commands to a running stickd, and its answers.

use crate::client::{
    BAD_WORDS, DONE, FAILED, Peer, answer_in_time, answer_told, is_on_terminal, say_no_memory, show,
};
use crate::errors::{is_command, is_error};
use crate::exporting::export_table;
use crate::hints::{asks_for_help, hint};
use crate::json::push_json;
use crate::marks::push_marked;
use crate::saving::save_tables;
use crate::terminal::{HOME, read_window};
use crate::window::{Window, push_fitting};
use base_sequence::NoMemory;
use std::alloc::Global;
use std::net::Net;
use std::rt::{Env, Files};
use std::time::{Clock, Duration};
use std::{io, thread};

/// The word that asks for what tables hold.
const SAVE: &str = "save";

/// The word that asks for a table's entries as other programs take them.
const EXPORT: &str = "export";

/// What `stickd ctl` is asked.
#[derive(Clone, Copy, Drop)]
pub struct Ctl<'a> {
    /// Where stickd answers commands.
    pub path: &'a str,
    /// The words of the commands.
    pub words: &'a [&'a str],
    /// Whether answers are shown as JSON.
    pub json: bool,
    /// After how many seconds the answer is shown again, if at all.
    pub watch: Option<u64>,
    /// The file to which what tables hold is saved, where that isn't standard output.
    pub to: Option<&'a str>,
    /// The name of the form in which a table is exported.
    pub form: Option<&'a str>,
    /// How long stickd may say nothing, in ms.
    pub patience: u64,
}

impl<'a> Ctl<'a> {
    /// Whom it asks.
    fn peer(&self) -> Peer<'a> {
        Peer {
            path: self.path,
            patience: self.patience,
        }
    }
}

/// Words with a blank between any two.
fn joined(alloc: Global, words: &[&str]) -> Result<Vec<u8>, NoMemory> {
    let mut text = Vec::new(alloc);
    for (place, word) in words.iter().enumerate() {
        if place > 0 {
            text.push(b' ')?;
        }
        text.extend_from_slice(word.as_bytes())?;
    }
    Ok(text)
}

/// What is shown of an answer: itself, or JSON.
fn shown(alloc: Global, asked: &Ctl<'_>, answer: &[u8]) -> Result<Vec<u8>, NoMemory> {
    let mut text = Vec::new(alloc);
    if asked.json {
        push_json(&mut text, answer)?;
    } else {
        text.extend_from_slice(answer)?;
    }
    Ok(text)
}

/// What is shown of an answer in place: JSON, or its lines behind marks of those that weren't there the last time, as far as they fit.
fn shown_in_place(
    alloc: Global,
    asked: &Ctl<'_>,
    last: Option<&[u8]>,
    answer: &[u8],
    window: Window,
) -> Result<Vec<u8>, NoMemory> {
    let mut lines = Vec::new(alloc);
    if asked.json {
        push_json(&mut lines, answer)?;
    } else {
        let answer = answer.trim_ascii_end();
        push_marked(&mut lines, last.unwrap_or(answer), answer)?;
    }
    let mut text = Vec::new(alloc);
    text.extend_from_slice(HOME)?;
    push_fitting(&mut text, lines.trim_ascii_end(), window)?;
    Ok(text)
}

/// Asks once, and answers the status.
fn ask_once<R: Net + Clock + Print + Eprint + AllocGlobal>(
    rt: &R,
    asked: &Ctl<'_>,
    command: &[u8],
) -> io::Result<u8> {
    let Some(answer) = answer_told(rt, asked.peer(), command)? else {
        return Ok(FAILED);
    };
    let Ok(text) = shown(rt.alloc(), asked, &answer) else {
        return say_no_memory(rt);
    };
    show(rt, &text)?;
    let is_known = !is_error(&answer);
    if asks_for_help(command) && !asked.json {
        show(rt, hint(is_known).as_bytes())?;
        return Ok(DONE);
    }
    Ok(if is_known { DONE } else { FAILED })
}

/// Asks again and again, until nobody answers. Off a terminal, the empty line that ends an answer parts it from the next, and
/// JSON has one of its own.
fn ask_again<R: Net + Clock + Env + Print + Eprint + AllocGlobal>(
    rt: &R,
    asked: &Ctl<'_>,
    command: &[u8],
    seconds: u64,
) -> io::Result<u8> {
    let in_place = is_on_terminal();
    let mut last: Option<Vec<u8>> = None;
    for turn in 0..u64::MAX {
        let Some(answer) = answer_in_time(rt, asked.peer(), command)? else {
            return Ok(FAILED);
        };
        let text = if in_place {
            shown_in_place(rt.alloc(), asked, last.as_deref(), &answer, read_window(rt))
        } else {
            shown(rt.alloc(), asked, &answer)
        };
        let Ok(text) = text else {
            return say_no_memory(rt);
        };
        if asked.json && !in_place && turn > 0 {
            show(rt, b"\n")?;
        }
        show(rt, &text)?;
        last = Some(answer);
        thread::sleep(rt, Duration::from_secs(seconds));
    }
    Ok(DONE)
}

/// Writes what tables hold, and answers the status, as `save_tables`; 2 where it is asked as JSON, or again.
fn save<R: Net + Files + Clock + Print + Eprint + AllocGlobal>(
    rt: &R,
    asked: &Ctl<'_>,
    tables: &[&str],
) -> io::Result<u8> {
    if asked.json || asked.watch.is_some() {
        eprintln!(rt; "stickd: save takes no --json and no --watch")?;
        return Ok(BAD_WORDS);
    }
    save_tables(rt, asked.peer(), tables, asked.to)
}

/// Writes a table's entries as other programs take them, and answers the status, as `export_table`; 2 where it is asked as something
/// else, too.
fn export<R: Net + Clock + Print + Eprint + AllocGlobal>(
    rt: &R,
    asked: &Ctl<'_>,
    words: &[&str],
) -> io::Result<u8> {
    if asked.json || asked.watch.is_some() || asked.to.is_some() {
        eprintln!(rt; "stickd: export takes no --json, no --watch and no --to")?;
        return Ok(BAD_WORDS);
    }
    export_table(rt, asked.peer(), words, asked.form)
}

/// Sends the words as one line of commands, shows what is answered, and answers the status, as `ask_running`.
fn ask<R: Net + Clock + Env + Print + Eprint + AllocGlobal>(
    rt: &R,
    asked: &Ctl<'_>,
) -> io::Result<u8> {
    let Ok(command) = joined(rt.alloc(), asked.words) else {
        return say_no_memory(rt);
    };
    if !is_command(&command) {
        eprintln!(rt; "stickd: commands are one line of at most 16384 bytes")?;
        return Ok(BAD_WORDS);
    }
    match asked.watch {
        Some(seconds) => ask_again(rt, asked, &command, seconds),
        None => ask_once(rt, asked, &command),
    }
}

/// Sends commands to a running stickd, shows what it answers, and answers the status: 0; 1 where a command did nothing or
/// nobody answers, which is said on standard error; 2 where the words are no line of commands. Where the first word is `save`,
/// nothing is sent but `show table`, and what the tables of the other words hold is written, to a file where one is named. Where it
/// is `export`, that is sent with the other words, and a table's entries are written in the form that is named.
pub fn ask_running<R: Net + Files + Clock + Env + Print + Eprint + AllocGlobal>(
    rt: &R,
    asked: &Ctl<'_>,
) -> io::Result<u8> {
    let (first, rest) = match asked.words.split_first() {
        Some((first, rest)) => (*first, rest),
        None => ("", asked.words),
    };
    if first == EXPORT {
        return export(rt, asked, rest);
    }
    if asked.form.is_some() {
        eprintln!(rt; "stickd: --as is for 'export' alone")?;
        return Ok(BAD_WORDS);
    }
    if first == SAVE {
        return save(rt, asked, rest);
    }
    if asked.to.is_some() {
        eprintln!(rt; "stickd: --to is for 'save' alone")?;
        return Ok(BAD_WORDS);
    }
    ask(rt, asked)
}
