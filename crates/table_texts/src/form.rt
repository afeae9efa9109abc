//! What form a command has, by its words alone; `table_cli` calls `read_form` for each command.

ghost use Rattle.std.specs.Prelude.{◌≡◌, option_map};
ghost use Rattle.base_lines.specs.Words.{words_left};
ghost use Rattle.base_lines.specs.declared.words.Blanks.TheVariants.{SpacesAndTabs};
ghost use Rattle.table_texts.specs.Form as spec;
ghost use Rattle.table_texts.specs.Form.{choice_of, clear_of, form_of, op_of, set_of, show_of};
ghost use Rattle.table_texts.specs.Seen.{seen, seen_choice, words_of};

use base_lines::{Blanks, Words};
use stick_model::Op;

/// Which entries a command means: all, that of a key, or those whose value of a field compares so.
#[derive(Clone, Copy)]
pub enum Choice<'a> {
    Everything,
    Key(&'a [u8]),
    Compare(&'a [u8], Op, &'a [u8]),
}

/// What a command asks of a table, in the words that it was given.
#[derive(Clone, Copy)]
pub enum Request<'a> {
    Show(Choice<'a>),
    Clear(Choice<'a>),
    /// A key, and the pairs of a field and a value.
    Set(&'a [u8], &'a [u8]),
}

/// What form a command has.
#[derive(Clone, Copy)]
pub enum Form<'a> {
    /// It has no words.
    Nothing,
    /// It has no form of a command.
    Unknown,
    /// It asks for the headers of all tables.
    Tables,
    /// It asks something of the table of a name.
    Of(&'a [u8], Request<'a>),
}

/// The name behind `data.`
pub fn datum_name(word: &[u8]) -> Option<&[u8]>
    ensures { option_map (λ name. name.now) result ≡ spec.datum_name word.now }
{
    if word.len() < 5 {
        return None;
    }
    let (prefix, name) = word.split_at(5);
    if prefix == b"data.".as_slice() {
        Some(name)
    } else {
        None
    }
}

/// How a word compares.
pub(crate) fn read_op(word: &[u8]) -> Option<Op>
    ensures { result ≡ op_of word.now }
{
    if word == b"eq".as_slice() {
        return Some(Op::Eq);
    }
    if word == b"ne".as_slice() {
        return Some(Op::Ne);
    }
    if word == b"le".as_slice() {
        return Some(Op::Le);
    }
    if word == b"ge".as_slice() {
        return Some(Op::Ge);
    }
    if word == b"lt".as_slice() {
        return Some(Op::Lt);
    }
    if word == b"gt".as_slice() {
        return Some(Op::Gt);
    }
    None
}

fn read_compare<'a>(word: &'a [u8], op: &[u8], value: &'a [u8]) -> Option<Choice<'a>>
    ensures { option_map seen_choice result ≡ spec.compare_of (spec.datum_name word.now) (op_of op.now) value.now }
{
    let Some(name) = datum_name(word) else {
        return None;
    };
    let Some(op) = read_op(op) else {
        return None;
    };
    Some(Choice::Compare(name, op, value))
}

fn read_choice(mut rest: Words<'_>) -> Option<Choice<'_>>
    ensures { option_map seen_choice result ≡ choice_of (words_left rest.entry) }
{
    let Some(word) = rest.next() else {
        return Some(Choice::Everything);
    };
    let Some(second) = rest.next() else {
        return None;
    };
    let Some(value) = rest.next() else {
        return if word == b"key".as_slice() {
            Some(Choice::Key(second))
        } else {
            None
        };
    };
    if rest.next().is_some() {
        return None;
    }
    read_compare(word, second, value)
}

fn read_show(mut rest: Words<'_>) -> Form<'_>
    ensures { seen result ≡ show_of (words_left rest.entry) }
{
    let Some(name) = rest.next() else {
        return Form::Tables;
    };
    match read_choice(rest) {
        Some(choice) => Form::Of(name, Request::Show(choice)),
        None => Form::Unknown,
    }
}

fn read_clear(mut rest: Words<'_>) -> Form<'_>
    ensures { seen result ≡ clear_of (words_left rest.entry) }
{
    let Some(name) = rest.next() else {
        return Form::Unknown;
    };
    match read_choice(rest) {
        Some(choice) => Form::Of(name, Request::Clear(choice)),
        None => Form::Unknown,
    }
}

/// Whether words are pairs of `data.X` and a value.
fn are_pairs(text: &[u8]) -> bool
    ensures { result ≡ spec.are_pairs (words_of text.now) }
{
    let mut words = Words::new(text, Blanks::SpacesAndTabs);
    while let Some(word) = words.next() {
        if words.next().is_none() || datum_name(word).is_none() {
            return false;
        }
    }
    true
}

fn read_set(mut rest: Words<'_>) -> Form<'_>
    requires { rest.blanks ≡ SpacesAndTabs }
    ensures { seen result ≡ set_of (words_left rest.entry) }
{
    let Some(name) = rest.next() else {
        return Form::Unknown;
    };
    let Some(word) = rest.next() else {
        return Form::Unknown;
    };
    let Some(key) = rest.next() else {
        return Form::Unknown;
    };
    let pairs = rest.rest();
    if word == b"key".as_slice() && are_pairs(pairs) {
        return Form::Of(name, Request::Set(key, pairs));
    }
    Form::Unknown
}

/// Reads a command's form.
pub fn read_form(command: &[u8]) -> Form<'_>
    ensures { seen result ≡ form_of (words_of command.now) }
{
    let mut rest = Words::new(command, Blanks::SpacesAndTabs);
    let Some(verb) = rest.next() else {
        return Form::Nothing;
    };
    let Some(noun) = rest.next() else {
        return Form::Unknown;
    };
    if noun != b"table".as_slice() {
        return Form::Unknown;
    }
    if verb == b"show".as_slice() {
        return read_show(rest);
    }
    if verb == b"clear".as_slice() {
        return read_clear(rest);
    }
    if verb == b"set".as_slice() {
        return read_set(rest);
    }
    Form::Unknown
}
