//! What a criterion compares with, in stickd's spelling; `criteria` calls it.

use crate::addresses::source_pattern;
use crate::calls::truth_text;
use crate::fetches::{Form, Subject};
use crate::keywords::is_one_of;
use crate::plan::Plan;
use crate::reasons::{Refusal, Why};
use crate::texts::{Words, append_str, copy_text, is_word, split_at_byte, text_of, word_at};
use base_lines::{push_decimal, read_number};
use std::alloc::Global;

/// The operators on integers.
const OPERATORS: [&str; 5] = ["eq", "ge", "gt", "le", "lt"];

/// The values of a criterion, and how it is to match them.
#[derive(Drop)]
struct Values {
    words: Words,
    /// The word behind `-m`, if any.
    method: Option<Vec<u8>>,
}

/// Adds the patterns of a file.
fn add_file(alloc: Global, plan: &Plan, name: &[u8], words: &mut Words) -> Result<(), Refusal> {
    for file in &plan.files {
        if file.name.as_slice() != name {
            continue;
        }
        let Some(text) = &file.text else {
            return Err(Refusal::Lost(Why::MissingFile));
        };
        let lines = split_at_byte(alloc, text.as_slice(), b'\n')?;
        for line in &lines {
            add_pattern(alloc, line.as_slice(), words)?;
        }
        return Ok(());
    }
    Err(Refusal::Lost(Why::MissingFile))
}

/// Adds the first word of a line of patterns, unless it is a comment.
fn add_pattern(alloc: Global, line: &[u8], words: &mut Words) -> Result<(), Refusal> {
    let mut pattern = Vec::new(alloc);
    for byte in line {
        let is_blank = matches!(*byte, b' ' | b'\t' | b'\r');
        if is_blank && !pattern.is_empty() {
            break;
        }
        if !is_blank {
            pattern.push(*byte)?;
        }
    }
    if pattern.is_empty() || pattern.first() == Some(&b'#') {
        return Ok(());
    }
    words.push(pattern)?;
    Ok(())
}

/// Reads the flags and the values of a criterion.
fn read_values(alloc: Global, plan: &Plan, given: &[Vec<u8>]) -> Result<Values, Refusal> {
    let mut words = Vec::new(alloc);
    let mut method = None;
    // What the next word is for: a value, or behind a flag.
    let mut flag = b' ';
    let mut has_flags = true;
    for word in given {
        let word = word.as_slice();
        match flag {
            b'm' => method = Some(copy_text(alloc, word)?),
            b'f' => add_file(alloc, plan, word, &mut words)?,
            b'u' => {}
            _ => {
                if has_flags && word.first() == Some(&b'-') {
                    flag = flag_of(word)?;
                    has_flags = !is_word(word, "--");
                    continue;
                }
                words.push(copy_text(alloc, word)?)?;
            }
        }
        flag = b' ';
    }
    Ok(Values { words, method })
}

/// The letter of a flag that is followed by a word, and a blank for one that isn't.
fn flag_of(word: &[u8]) -> Result<u8, Refusal> {
    if is_one_of(word, &["-i", "-n", "--"]) {
        return Ok(b' ');
    }
    if is_word(word, "-m") {
        return Ok(b'm');
    }
    if is_word(word, "-f") {
        return Ok(b'f');
    }
    if is_word(word, "-u") {
        return Ok(b'u');
    }
    Err(Refusal::Lost(Why::UnknownValue))
}

/// A criterion on the client's address.
fn on_address(alloc: Global, subject: Subject, values: &Values) -> Result<Words, Refusal> {
    if let Some(method) = &values.method
        && !is_word(method.as_slice(), "ip")
    {
        return Err(Refusal::Lost(Why::UnknownValue));
    }
    let Subject { word, .. } = subject;
    let mut words = Vec::new(alloc);
    words.push(word)?;
    let mut has_all = false;
    for value in &values.words {
        has_all = has_all || is_word(value.as_slice(), "::/0");
        words.push(source_pattern(alloc, value.as_slice())?)?;
    }
    // To HAProxy an IPv4 address is one of all IPv6 addresses too.
    if has_all {
        words.push(text_of(alloc, "0.0.0.0/0")?)?;
    }
    if words.len() < 2 {
        // A file of patterns may be empty, and then nothing matches.
        let mut never = Vec::new(alloc);
        never.push(truth_text(alloc, false)?)?;
        return Ok(never);
    }
    Ok(words)
}

/// Whether a word is a number or a range of them.
fn is_integer(alloc: Global, word: &[u8]) -> Result<bool, Refusal> {
    let bounds = split_at_byte(alloc, word, b':')?;
    if bounds.len() > 2 {
        return Ok(false);
    }
    let mut some = false;
    for bound in &bounds {
        if !bound.is_empty() {
            some = true;
            if read_number(bound.as_slice()).is_none() {
                return Ok(false);
            }
        }
    }
    Ok(some)
}

/// Whether 0 is matched by a value behind an operator.
fn matches_zero(alloc: Global, operator: &[u8], word: &[u8]) -> Result<bool, Refusal> {
    let bounds = split_at_byte(alloc, word, b':')?;
    let first = read_number(word_at(bounds.as_slice(), 0));
    if bounds.len() == 2 {
        return Ok(first.unwrap_or(0) == 0);
    }
    let number = first.unwrap_or(0);
    Ok(if is_word(operator, "gt") {
        false
    } else if is_word(operator, "lt") {
        number > 0
    } else if is_word(operator, "le") {
        true
    } else {
        number == 0
    })
}

/// A criterion on an integer, and whether 0 meets it.
fn compared(alloc: Global, word: Vec<u8>, values: &[Vec<u8>]) -> Result<(Words, bool), Refusal> {
    let mut words = Vec::new(alloc);
    words.push(word)?;
    let mut operator = text_of(alloc, "eq")?;
    let mut zero = false;
    for value in values {
        let value = value.as_slice();
        if is_one_of(value, &OPERATORS) {
            operator = copy_text(alloc, value)?;
        } else if is_integer(alloc, value)? {
            zero = zero || matches_zero(alloc, operator.as_slice(), value)?;
        } else {
            return Err(Refusal::Lost(Why::UnknownValue));
        }
        words.push(copy_text(alloc, value)?)?;
    }
    if words.len() < 2 {
        // To HAProxy an integer without a value never matches.
        let mut never = Vec::new(alloc);
        never.push(truth_text(alloc, false)?)?;
        return Ok((never, false));
    }
    Ok((words, zero))
}

/// A criterion on an integer by `-m`.
fn by_method(
    alloc: Global,
    word: Vec<u8>,
    method: &[u8],
    values: &Values,
) -> Result<(Words, bool), Refusal> {
    if is_word(method, "int") {
        return compared(alloc, word, values.words.as_slice());
    }
    if !is_word(method, "bool") {
        return Err(Refusal::Lost(Why::UnknownValue));
    }
    let mut words = Vec::new(alloc);
    words.push(word)?;
    words.push(text_of(alloc, "gt")?)?;
    words.push(text_of(alloc, "0")?)?;
    Ok((words, false))
}

/// A criterion on an integer, and whether 0 meets it.
fn on_integer(alloc: Global, word: Vec<u8>, values: &Values) -> Result<(Words, bool), Refusal> {
    match &values.method {
        Some(method) => by_method(alloc, word, method.as_slice(), values),
        None => compared(alloc, word, values.words.as_slice()),
    }
}

/// What a criterion on what is 0 comes to: whether the slot tracks, or never.
fn on_zero(alloc: Global, slot: u8, holds: bool) -> Result<Words, Refusal> {
    let mut words = Vec::new(alloc);
    if !holds {
        words.push(truth_text(alloc, false)?)?;
        return Ok(words);
    }
    let mut word = text_of(alloc, "sc")?;
    push_decimal(&mut word, u64::from(slot))?;
    append_str(&mut word, "_tracked")?;
    words.push(word)?;
    Ok(words)
}

/// The words of a criterion on what is asked, by the words behind it.
pub(crate) fn with_values(
    alloc: Global,
    plan: &Plan,
    subject: Subject,
    given: &[Vec<u8>],
) -> Result<Words, Refusal> {
    if subject.form == Form::Truth {
        let mut words = Vec::new(alloc);
        let Subject { word, .. } = subject;
        words.push(word)?;
        return Ok(words);
    }
    let values = read_values(alloc, plan, given)?;
    match subject.form {
        Form::Truth | Form::Address => on_address(alloc, subject, &values),
        Form::Integer => {
            let Subject { word, .. } = subject;
            let (words, _) = on_integer(alloc, word, &values)?;
            Ok(words)
        }
        Form::Zero(slot) => {
            let Subject { word, .. } = subject;
            let (_, zero) = on_integer(alloc, word, &values)?;
            on_zero(alloc, slot, zero)
        }
    }
}
