//! A change that takes a restart, and how it is said; `renew` answers it, and `tcp_proxy` prints it behind `Not reloaded: `.
ghost use Rattle.std.specs.Prelude.{◌≡◌};
ghost use Rattle.rule_change.specs.declared.change.NotRenewed.TheVariants.{Memory};

use base_sequence::NoMemory;
use rule_model::Name;
use std::fmt::{self, Display, Formatter, Write};
use std::str;
use thiserror::Error;

/// What of a table's making stays until a restart, in the order in which it is looked at.
#[derive(Clone, Copy, Debug, PartialEq, Eq, Error)]
pub enum Part {
    #[error("type")]
    Kind,
    #[error("size")]
    Size,
    #[error("expire")]
    Expire,
    #[error("nopurge")]
    Nopurge,
    #[error("data")]
    Columns,
    #[error("purge")]
    Purge,
}

/// What a configuration that is read again changes, and a running proxy doesn't.
#[derive(Debug, Drop)]
pub enum Change {
    /// Nothing listens for clients.
    NoBind,
    /// There is no server to connect them to.
    NoServer,
    Bind,
    Shards,
    Prefixes,
    /// A table of this name isn't there any more.
    TableGone(Name),
    /// A table is made otherwise.
    TableChanges(Name, Part),
    /// A table of this name wasn't there.
    TableNew(Name),
}

/// Why there is no next version of a setup.
#[derive(Debug, Drop, Error)]
pub enum NotRenewed {
    #[error("{0}")]
    Change(Change),
    /// A growth was refused.
    #[error("out of memory.")]
    Memory,
}

impl From<NoMemory> for NotRenewed {
    ghost from_gives = { λ _ error. error ≡ Memory };

    fn from(_refused: NoMemory) -> NotRenewed {
        NotRenewed::Memory
    }
}

/// A table's name. Those of a configuration are text.
fn text_of(name: &Name) -> &str {
    str::from_utf8(name.as_slice()).unwrap_or("?")
}

impl Display for Change {
    fn fmt<W: Write>(&self, f: &mut Formatter<W>) -> fmt::Result {
        match self {
            Change::NoBind => return f.write_str("no bind."),
            Change::NoServer => return f.write_str("no server."),
            Change::Bind => f.write_str("bind changes")?,
            Change::Shards => f.write_str("the number of shards changes")?,
            Change::Prefixes => f.write_str("the prefix of a key changes")?,
            Change::TableGone(name) => write!(f, "table {} is gone", text_of(name))?,
            Change::TableChanges(name, part) => {
                write!(f, "table {} changes its {part}", text_of(name))?
            }
            Change::TableNew(name) => write!(f, "table {} is new", text_of(name))?,
        }
        f.write_str(", which takes a restart.")
    }
}
