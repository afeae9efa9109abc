//! Why a saved file isn't loaded; `loading` answers it.

use std::fmt;
use std::fmt::{Display, Formatter, Write};

/// How many bytes of a word are told.
const TOLD: usize = 120;

/// Why a line can't be loaded.
#[derive(Drop)]
pub enum LineFault<'a> {
    /// The first word is no number of ms.
    NoTime(&'a [u8]),
    /// This word stands where `cmd` is to stand; or none.
    NoCommand(&'a [u8]),
    /// The command makes no entry.
    NoEntry(&'a [u8]),
    /// The command is answered so.
    Answered(&'a [u8], Vec<u8>),
    /// The entry is new to its shard of this table, all of whose places are taken.
    NoRoom(&'a [u8]),
    /// The file says that its last line says how many entries it has, and it doesn't: the file is cut.
    Cut,
    /// The last line says another number of entries than the file has.
    Miscounted { said: u64, found: u64 },
    NoMemory,
}

/// Why a file isn't loaded, or a line of it is skipped, and the number of the line, counted from 1.
#[derive(Drop)]
pub struct LoadFault<'a> {
    pub line: u64,
    pub fault: LineFault<'a>,
}

/// Bytes as they are told: visible ones as they are, others as `\x` and two digits, and no more than so many.
#[derive(Drop)]
struct Told<'a>(&'a [u8]);

impl<'a> Display for Told<'a> {
    fn fmt<W: Write>(&self, f: &mut Formatter<W>) -> fmt::Result {
        for byte in self.0.iter().take(TOLD) {
            let byte = *byte;
            if byte.is_ascii_graphic() || byte == b' ' {
                f.write_char(char::from(byte))?;
            } else {
                write!(f, "\\x{byte:02x}")?;
            }
        }
        Ok(())
    }
}

impl<'a> Display for LineFault<'a> {
    fn fmt<W: Write>(&self, f: &mut Formatter<W>) -> fmt::Result {
        match self {
            LineFault::NoTime(word) => write!(
                f,
                "'{}' stands where the ms are to stand that an entry has left",
                Told(word)
            ),
            LineFault::NoCommand(b"") => f.write_str("nothing stands where 'cmd' is to stand"),
            LineFault::NoCommand(word) => write!(
                f,
                "'{}' stands where 'cmd' is to stand",
                Told(word)
            ),
            LineFault::NoEntry(command) => write!(
                f,
                "'{}' is no 'set table T key K [data.X V]..'",
                Told(command.trim_ascii())
            ),
            LineFault::Answered(command, said) => write!(
                f,
                "'{}' is answered '{}'",
                Told(command.trim_ascii()),
                Told(said)
            ),
            LineFault::NoRoom(table) => write!(
                f,
                "all places of its shard of table {} are taken",
                Told(table)
            ),
            LineFault::Cut => {
                f.write_str(
                    "the file is cut: its last line isn't '# entries: N', as its first line says",
                )
            }
            LineFault::Miscounted { said, found } => write!(
                f,
                "the last line says {said} entries, and the file has {found}"
            ),
            LineFault::NoMemory => f.write_str("out of memory"),
        }
    }
}

impl<'a> Display for LoadFault<'a> {
    fn fmt<W: Write>(&self, f: &mut Formatter<W>) -> fmt::Result {
        write!(f, "line {}: {}", self.line, self.fault)
    }
}
