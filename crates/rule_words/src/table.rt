//! The words of a line `stick-table`; `rule_config` calls it.

ghost use Rattle.std.specs.Prelude.{◌≡◌, ◌∷◌, option_map};
ghost use Rattle.base_lines.specs.Words.{words_left};
ghost use Rattle.rule_model.specs.Reading.{Gives, Leaves};
ghost use Rattle.rule_words.specs.Table as spec;
ghost use Rattle.rule_words.specs.Table.{complete, kind_of, no_settings, pairs_of, table_of, with_setting, with_settings};

use crate::columns::add_items;
use crate::demand;
use crate::lines::next_or_empty;
use crate::numbers::{read_bounded, read_size, read_time};
use base_lines::Words;
use rule_model::{Fault, ReadError, TableSpec};
use std::alloc::Global;
use stick_key::KeyType;
use stored_data::StoredSet;

/// What the words of a line `stick-table` set so far.
#[derive(Drop)]
pub struct Settings {
    pub kind: Option<KeyType>,
    /// Whether `len` may come next: it stands right behind `type string` or `type binary`.
    pub takes_length: bool,
    pub size: Option<u32>,
    /// In ms.
    pub expire: Option<u32>,
    pub nopurge: bool,
    pub columns: StoredSet,
}

/// The kind of key of a name.
#[tactic(auto, unfolding(crate::specs::Table::kind_of))]
fn read_kind(word: &[u8]) -> Option<KeyType>
    ensures { result ≡ kind_of word.now }
{
    if word == b"ip".as_slice() {
        Some(KeyType::Ip)
    } else if word == b"ipv6".as_slice() {
        Some(KeyType::Ipv6)
    } else if word == b"integer".as_slice() {
        Some(KeyType::Integer)
    } else if word == b"string".as_slice() {
        Some(KeyType::Text(32))
    } else if word == b"binary".as_slice() {
        Some(KeyType::Binary(32))
    } else {
        None
    }
}

/// Whether keys of this kind have a length of their own.
fn has_length(kind: KeyType) -> bool
    ensures { result ≡ spec.has_length kind }
{
    matches!(kind, KeyType::Text(_) | KeyType::Binary(_))
}

/// The kind of this length, where such keys have one.
fn with_length(kind: KeyType, length: u32) -> KeyType
    ensures { result ≡ spec.with_length length kind }
{
    match kind {
        KeyType::Text(_) => KeyType::Text(length),
        KeyType::Binary(_) => KeyType::Binary(length),
        KeyType::Ip | KeyType::Ipv6 | KeyType::Integer => kind,
    }
}

/// Takes the value of a keyword: the next word, but for `nopurge`, which has none. One that is missing is empty.
fn take_value<'a>(keyword: &[u8], words: &mut Words<'a>) -> &'a [u8]
    ensures { pairs_of (keyword.now ∷ words_left words.old) ≡ (keyword.now, result.now) ∷ pairs_of (words_left words.new) }
{
    if keyword == b"nopurge".as_slice() {
        return b"";
    }
    next_or_empty(words)
}

/// The kind that is set, if any, with this length.
fn resized(kind: Option<KeyType>, length: u32) -> Option<KeyType>
    ensures { result ≡ option_map (spec.with_length length) kind }
{
    kind.map(|kind| with_length(kind, length))
}

impl Settings {
    fn new(alloc: Global) -> Self
        ensures { result ≡ no_settings }
    {
        Settings {
            kind: None,
            takes_length: false,
            size: None,
            expire: None,
            nopurge: false,
            columns: StoredSet::new(alloc),
        }
    }

    /// Sets what a keyword with its value says.
    #[tactic(auto, unfolding(crate::specs::Table::with_setting))]
    fn set(&mut self, keyword: &[u8], value: &[u8]) -> Result<(), ReadError>
        ensures { Leaves result self.new (with_setting self.old keyword.now value.now) }
    {
        let takes_length = self.takes_length;
        self.takes_length = false;
        if keyword == b"type".as_slice() {
            demand(self.kind.is_none(), Fault::UnknownKeyword)?;
            let Some(kind) = read_kind(value) else {
                return Err(ReadError::Wrong(Fault::UnknownType));
            };
            self.kind = Some(kind);
            self.takes_length = has_length(kind);
            return Ok(());
        }
        if keyword == b"len".as_slice() {
            demand(takes_length, Fault::UnknownKeyword)?;
            let length = read_bounded(value, 1, 1_024)?;
            self.kind = resized(self.kind, length);
            return Ok(());
        }
        if keyword == b"size".as_slice() {
            demand(self.size.is_none(), Fault::UnknownKeyword)?;
            self.size = Some(read_size(value)?);
            return Ok(());
        }
        if keyword == b"expire".as_slice() {
            demand(self.expire.is_none(), Fault::UnknownKeyword)?;
            self.expire = Some(read_time(value)?);
            return Ok(());
        }
        if keyword == b"nopurge".as_slice() {
            demand(!self.nopurge, Fault::UnknownKeyword)?;
            self.nopurge = true;
            return Ok(());
        }
        if keyword == b"store".as_slice() {
            return add_items(&mut self.columns, value);
        }
        Err(ReadError::Wrong(Fault::UnknownKeyword))
    }

    /// Sets what all words say.
    fn set_all(&mut self, words: &mut Words<'_>) -> Result<(), ReadError>
        ensures { Leaves result self.new (with_settings self.old (pairs_of (words_left words.old))) }
    {
        while let Some(keyword) = words.next() {
            let value = take_value(keyword, words);
            self.set(keyword, value)?;
        }
        Ok(())
    }

    /// The table, where its type and its size are set.
    fn into_table(self) -> Result<TableSpec, ReadError>
        ensures { Gives result (complete self) }
    {
        let Settings {
            kind,
            takes_length: _,
            size,
            expire,
            nopurge,
            columns,
        } = self;
        let Some(kind) = kind else {
            return Err(ReadError::Wrong(Fault::UnknownType));
        };
        let Some(size) = size else {
            return Err(ReadError::Wrong(Fault::BadSize));
        };
        Ok(TableSpec {
            kind,
            size,
            expire,
            nopurge,
            columns,
        })
    }
}

/// Reads the words behind `stick-table`.
#[tactic(auto, unfolding(crate::specs::Table::table_of))]
pub fn read_table(alloc: Global, words: &mut Words<'_>) -> Result<TableSpec, ReadError>
    ensures { Gives result (table_of (words_left words.old)) }
{
    let mut settings = Settings::new(alloc);
    settings.set_all(words)?;
    settings.into_table()
}
