//! What a command is answered, the whole text in memory; `table_cli` makes it of a table's reply.

ghost use Rattle.std.specs.Prelude.{◌≡◌, ◌++◌, IfErr, IfOk, nat_eq, true, codes, if◌then◌else◌};
ghost use Rattle.std.specs.List.{flat_map};
ghost use Rattle.table_texts.specs.Text.{header_text, row_text};
ghost use Rattle.stick_model.specs.Reading.{rows_in_place};
ghost use Rattle.stick_model.specs.Step.{shows_rows};
ghost use Rattle.table_texts.specs.declared.message.Message.TheVariants.{InUse};
ghost use Rattle.table_texts.specs.Texts.{message_text, reply_text};
ghost use Rattle.table_texts.specs.Bytes.{bytes_of};

use crate::Message;
use crate::header::push_header;
use crate::rows::push_rows;
use base_sequence::NoMemory;
use std::alloc::Global;
use stick_model::{InPlace, Reply, Spec};

/// An answer, whole.
#[derive(Drop)]
pub enum Answer {
    /// To a command without words.
    Nothing,
    /// The empty line alone.
    Done,
    Message(Message),
    Listing(Vec<u8>),
}

impl Answer {
    /// What a table's reply is answered. A reply that shows no row takes no memory.
    pub fn of_reply(
        alloc: Global,
        table: &[u8],
        spec: &Spec,
        reply: &Reply,
    ) -> Result<Answer, NoMemory>
        ensures text { IfOk result (λ answer. bytes_of answer ≡ reply_text table.now spec.now reply.now) }
        ensures memory { IfErr result (λ _. shows_rows reply.now ≡ true) }
    {
        match reply {
            Reply::Rows { used, rows } => match rows.in_place() {
                Ok(rows) => listing(alloc, table, spec, *used, &rows),
                Err(refused) => Err(refused),
            },
            Reply::NotStored(_) => Ok(Answer::Message(Message::NotStored)),
            Reply::NotSettable(_) => Ok(Answer::Message(Message::NotSettable)),
            Reply::Full => Ok(Answer::Message(Message::TableFull)),
            Reply::Absent => Ok(Answer::Message(Message::KeyNotPresent)),
            Reply::InUse => Ok(Answer::Message(Message::InUse)),
            Reply::Cleared { kept, .. } => Ok(cleared(*kept)),
            _ => Ok(Answer::Done),
        }
    }

    /// The text, with the empty line that ends it.
    pub fn bytes(&self) -> &[u8]
        ensures { result.now ≡ bytes_of self.now }
    {
        match self {
            Answer::Nothing => b"",
            Answer::Done => b"\n",
            Answer::Message(message) => message.bytes(),
            Answer::Listing(text) => text.as_slice(),
        }
    }
}

/// The answer to a clearing that kept so many entries that are tracked.
fn cleared(kept: u64) -> Answer
    ensures { bytes_of result ≡ (if nat_eq kept 0 then codes "\n" else message_text InUse) }
{
    if kept == 0 {
        return Answer::Done;
    }
    Answer::Message(Message::InUse)
}

fn listing(
    alloc: Global,
    table: &[u8],
    spec: &Spec,
    used: u64,
    rows: &InPlace<'_>,
) -> Result<Answer, NoMemory>
    ensures { IfOk result (λ answer. bytes_of answer
        ≡ header_text table.now spec.now.kind spec.now.size used ++ flat_map (row_text spec.now.kind spec.now.columns) (rows_in_place rows.now) ++ codes "\n") }
{
    let mut text = Vec::new(alloc);
    push_header(&mut text, table, spec.kind, u64::from(spec.size), used)?;
    push_rows(alloc, &mut text, spec.kind, &spec.columns, rows)?;
    text.extend_from_slice(b"\n")?;
    Ok(Answer::Listing(text))
}
