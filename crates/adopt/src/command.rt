//! The command line that stands for lines of limits and times; `adoption` writes it.

ghost use Rattle.std.specs.Prelude.{◌≡◌, OnOk};
ghost use Rattle.adopt.specs.StartWords as spec;

use crate::options::CommandOption;
use crate::texts::{append, append_str, copy_text, text_of};
use base_sequence::NoMemory;
use std::alloc::Global;

/// What the command line begins with: the configuration's name and the socket are for whoever runs it to change.
const START: &str = "stickd run stickd.cfg --socket /run/stickd/stickd.sock";

/// The socket on which a start answers commands, unless it is told of another.
const USUAL_SOCKET: &str = "/run/stickd/stickd.sock";

/// The options without which the program doesn't run.
const SOCKET: &str = "--socket";

const THREADS: &str = "--threads";

/// How many threads HAProxy has where no line says it, as far as it is known here.
const USUAL_THREADS: &str = "1";

/// What a file begins with that was adopted already.
pub(crate) const HEAD: &str = "# stickd run ";

/// Whether a value is read by a shell as it stands.
fn is_bare(value: &[u8]) -> bool {
    for byte in value {
        let is_known = matches!(
            *byte,
            b'-' | b'_' | b'.' | b':' | b'/' | b'@' | b',' | b'+' | b'%' | b'='
        );
        if !byte.is_ascii_alphanumeric() && !is_known {
            return false;
        }
    }
    true
}

/// Adds a value, in apostrophes where a shell would change it.
fn add_value(text: &mut Vec<u8>, value: &[u8]) -> Result<(), NoMemory> {
    append_str(text, " ")?;
    if is_bare(value) {
        return append(text, value);
    }
    append_str(text, "'")?;
    for byte in value {
        if *byte == b'\'' {
            append_str(text, "'\\''")?;
        } else {
            text.push(*byte)?;
        }
    }
    append_str(text, "'")
}

/// The command line of these options.
fn from_options(alloc: Global, options: &[CommandOption]) -> Result<Vec<u8>, NoMemory> {
    let mut text = copy_text(alloc, START.as_bytes())?;
    let has_threads = options.iter().any(|option| option.flag == THREADS);
    if !has_threads {
        append_str(&mut text, " --threads ")?;
        append_str(&mut text, USUAL_THREADS)?;
    }
    for option in options {
        append_str(&mut text, " ")?;
        append_str(&mut text, option.flag)?;
        if let Some(value) = &option.value {
            add_value(&mut text, value.as_slice())?;
        }
    }
    Ok(text)
}

/// The command line: that of this first line of a file, else one of these options.
pub(crate) fn command_of(
    alloc: Global,
    first: Option<&[u8]>,
    options: &[CommandOption],
) -> Result<Vec<u8>, NoMemory> {
    if let Some(raw) = first
        && raw.starts_with(HEAD.as_bytes())
        && let Some(command) = raw.strip_prefix(b"# ".as_slice())
    {
        return copy_text(alloc, command);
    }
    from_options(alloc, options)
}

/// Whether an option is there.
fn has(options: &[CommandOption], flag: &str) -> bool
    ensures { result ≡ spec.has options.now flag.now }
{
    for option in options {
        if option.flag == flag {
            return true;
        }
    }
    false
}

/// Adds an option that stands for no line, unless it is there.
fn add_unless(
    alloc: Global,
    options: &mut Vec<CommandOption>,
    flag: &'static str,
    value: &str,
) -> Result<(), NoMemory>
    ensures { OnOk result (spec.shown options.new.items ≡ spec.with_unless (spec.shown options.old.items) flag.now value.now) }
{
    if has(options.as_slice(), flag) {
        return Ok(());
    }
    options.push(CommandOption {
        flag,
        value: Some(text_of(alloc, value)?),
        line: None,
    })?;
    Ok(())
}

/// Adds the options without which the program doesn't run, where they aren't there.
pub(crate) fn add_usual(alloc: Global, options: &mut Vec<CommandOption>) -> Result<(), NoMemory>
    ensures { OnOk result (spec.shown options.new.items ≡ spec.with_usual (spec.shown options.old.items)) }
{
    add_unless(alloc, options, SOCKET, USUAL_SOCKET)?;
    add_unless(alloc, options, THREADS, USUAL_THREADS)
}
