//! The command line of a start that takes a file of HAProxy: `stickd` reads that in place of the one it was given.

ghost use Rattle.std.specs.Prelude.{◌≡◌, ◌++◌, ◌∷◌, [], IfOk, OnOk, flat_map};
ghost use Rattle.adopt.specs.StartWords as spec;

use crate::headers::{SEND_PROXY, SEND_PROXY_V2};
use crate::options::CommandOption;
use std::alloc::Global;
use std::str;

/// How many words stand before the options: the program's name, and its command.
const FRONT: usize = 2;

/// Why a command line can't be made.
#[derive(Clone, Copy, Debug, PartialEq, Eq)]
pub enum WordsFault {
    /// A value of the file isn't UTF-8.
    NotUtf8,
    NoMemory,
}

/// Whether a word names an option: it is the option, or the option with its value after `=`.
fn names(word: &[u8], option: &[u8]) -> bool
    ensures { result ≡ spec.names option.now word.now }
{
    if word.len() < option.len() {
        return false;
    }
    let (name, rest) = word.split_at(option.len());
    name == option && rest.first().is_none_or(|byte| *byte == b'=')
}

/// Whether a command line gives an option.
fn gives(words: &[String], option: &str) -> bool
    ensures { result ≡ spec.gives words.now option.now }
{
    words
        .iter()
        .any(|word| names(word.as_bytes(), option.as_bytes()))
}

/// The option that can't stand beside this one, as it says the same in another way; itself where there is none.
fn rival_of(option: &str) -> &str
    ensures { result.now ≡ spec.rival_of option.now }
{
    if option == SEND_PROXY {
        return SEND_PROXY_V2;
    }
    if option == SEND_PROXY_V2 {
        return SEND_PROXY;
    }
    option
}

/// Whether a command line gives an option, or the one that can't stand beside it.
fn overrules(words: &[String], option: &str) -> bool
    ensures { result ≡ spec.overrules words.now option.now }
{
    gives(words, option) || gives(words, rival_of(option))
}

/// Adds a word.
fn push_word(all: &mut Vec<String>, alloc: Global, word: &[u8]) -> Result<(), WordsFault>
    ensures { OnOk result (spec.texts all.new.items ≡ spec.texts all.old.items ++ word.now ∷ []) }
{
    let Ok(text) = str::from_utf8(word) else {
        return Err(WordsFault::NotUtf8);
    };
    let Ok(copy) = String::from_str(alloc, text) else {
        return Err(WordsFault::NoMemory);
    };
    match all.push(copy) {
        Ok(()) => Ok(()),
        Err(_) => Err(WordsFault::NoMemory),
    }
}

/// Adds the words of a command line.
fn push_words(all: &mut Vec<String>, alloc: Global, words: &[String]) -> Result<(), WordsFault>
    ensures { OnOk result (spec.texts all.new.items ≡ spec.texts all.old.items ++ spec.texts words.now) }
{
    for word in words {
        push_word(all, alloc, word.as_bytes())?;
    }
    Ok(())
}

/// Adds a word, if there is one.
fn push_value(
    all: &mut Vec<String>,
    alloc: Global,
    value: &Option<Vec<u8>>,
) -> Result<(), WordsFault>
    ensures { OnOk result (spec.texts all.new.items ≡ spec.texts all.old.items ++ spec.value_words value.now) }
{
    match value {
        Some(value) => push_word(all, alloc, value.as_slice()),
        None => Ok(()),
    }
}

/// Adds the words of an option, unless a command line overrules it.
fn push_option(
    all: &mut Vec<String>,
    alloc: Global,
    words: &[String],
    option: &CommandOption,
) -> Result<(), WordsFault>
    ensures { OnOk result (spec.texts all.new.items ≡ spec.texts all.old.items ++ spec.words_for words.now option.now) }
{
    if overrules(words, option.flag) {
        return Ok(());
    }
    push_word(all, alloc, option.flag.as_bytes())?;
    push_value(all, alloc, &option.value)
}

/// Adds the words of those options that a command line doesn't overrule.
fn push_options(
    all: &mut Vec<String>,
    alloc: Global,
    words: &[String],
    options: &[CommandOption],
) -> Result<(), WordsFault>
    ensures { OnOk result (spec.texts all.new.items ≡ spec.texts all.old.items ++ flat_map (spec.words_for words.now) options.now) }
{
    for option in options {
        push_option(all, alloc, words, option)?;
    }
    Ok(())
}

/// A command line, with those of the options that it doesn't overrule: what an operator asks for counts more than the file. The words
/// stand behind the program's name and its command, before all others.
///
/// An error where a value of the file isn't UTF-8, or there is no memory.
pub fn with_options(
    alloc: Global,
    words: &[String],
    options: &[CommandOption],
) -> Result<Vec<String>, WordsFault>
    ensures { IfOk result (λ all. spec.texts all.items ≡ spec.with_options words.now options.now) }
{
    let (front, rest) = words.split_at(words.len().min(FRONT));
    let mut all = Vec::new(alloc);
    push_words(&mut all, alloc, front)?;
    push_options(&mut all, alloc, words, options)?;
    push_words(&mut all, alloc, rest)?;
    Ok(all)
}
