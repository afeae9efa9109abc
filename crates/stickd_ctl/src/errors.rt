//! Commands, and the answers that say why one did nothing.

ghost use Rattle.std.specs.Prelude.{◌≡◌};
ghost use Rattle.stickd_ctl.specs.Errors as spec;

use crate::lines::split_at_first;
use base_lines::{LINE_LIMIT, Parts};
use table_texts::Message;

/// Why a command may have done nothing.
const MESSAGES: [Message; 11] = [
    Message::UnknownCommand,
    Message::NoSuchTable,
    Message::InvalidKey,
    Message::NotStored,
    Message::NotSettable,
    Message::InvalidValue,
    Message::InUse,
    Message::KeyNotPresent,
    Message::TableFull,
    Message::OutOfMemory,
    Message::Unavailable,
];

/// Whether a line is what a message is printed as.
fn is_said_by(line: &[u8], message: Message) -> bool
    ensures { result ≡ spec.is_said_by line.now message }
{
    let (said, _rest) = split_at_first(message.bytes(), b'\n');
    said == line
}

/// Whether a line is one that says why a command did nothing.
fn is_error_line(line: &[u8]) -> bool
    ensures { result ≡ spec.is_error_line line.now }
{
    MESSAGES.iter().any(|message| is_said_by(line, *message))
}

/// Whether a line of what commands are answered says why one of them did nothing.
pub fn is_error(answer: &[u8]) -> bool
    ensures { result ≡ spec.is_error answer.now }
{
    let mut lines = Parts::new(answer, b'\n');
    while let Some(line) = lines.next() {
        if is_error_line(line) {
            return true;
        }
    }
    false
}

/// Whether a text has a line end.
fn has_line_end(text: &[u8]) -> bool
    ensures { result ≡ spec.has_line_end text.now }
{
    text.iter().any(|byte| *byte == b'\n')
}

/// Whether a text can be sent as one line of commands: it has no line end, and is no longer than the socket takes.
pub fn is_command(text: &[u8]) -> bool
    ensures { result ≡ spec.is_command text.now }
{
    text.len() <= LINE_LIMIT && !has_line_end(text)
}

/// Whether no word stands in a line of commands, so that it is answered by nothing.
pub(crate) fn is_blank(text: &[u8]) -> bool
    ensures { result ≡ spec.is_blank text.now }
{
    text.iter()
        .all(|byte| *byte == b' ' || *byte == b'\t' || *byte == b';')
}
