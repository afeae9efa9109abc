//! How the rules of a run are renewed while it goes on; `Running` does it as an operator asks for it.

ghost use Rattle.std.specs.Prelude.{◌≤◌};

use crate::changed_lines::tell_changes;
use crate::plan::Source;
use crate::rereading::{MOST_VERSIONS, NewRules, NotReloaded, reread};
use log::Log;
use rule_model::Setup;
use std::alloc::Global;
use std::net::SocketAddr;
use std::sync::{Mutex, Wait};
use tcp_relay::{Version, Versions, socket_address};
use thiserror::Error;

/// What is told of a version that follows. It is printed as `version 2, 3 rules, server 127.0.0.1:8000`.
#[derive(Clone, Copy, Debug, Error)]
#[error("version {version}, {rules} rules, server {server}")]
pub(crate) struct Reloaded {
    /// Its number: the first one's is 1.
    pub version: usize,
    /// How many rules it has.
    pub rules: usize,
    pub server: SocketAddr,
}

/// The rules of a run: those of its start, and what follows them.
#[derive(Clone, Copy)]
pub(crate) struct Reloads<'a> {
    /// Where they are read again.
    pub source: Source<'a>,
    pub first: &'a Setup,
    /// What the first rules were read of.
    pub first_text: &'a [u8],
    pub versions: &'a Versions,
    /// How many connections there are at most.
    pub connections: u32,
    /// What the newest rules were read of, where they followed the first. Whoever has it renews the rules.
    pub newest: &'a Mutex<Option<Vec<u8>>>,
    ghost few: { (1 ≤ first.now.shards) × (first.now.shards ≤ 64) },
}

impl<'a> Reloads<'a> {
    /// The number of the newest version.
    pub fn version(&self) -> usize {
        self.versions.count().saturating_add(1)
    }

    /// Where the newest version's server is, as it is told, where one has followed the first.
    pub fn server(&self) -> Option<&'a str> {
        let version = self.versions.last_of(self.versions.count())?;
        Some(version.server.as_str())
    }

    /// Reads the rules again, and has whoever comes from now on be judged by them. Appends the answer to who asked for it, and says which
    /// lines changed. Where that can't be, no rule changes.
    pub fn renew<R: Log + Wait>(
        &self,
        alloc: Global,
        rt: &R,
        answer: &mut Vec<u8>,
    ) -> Result<Reloaded, NotReloaded<'a>> {
        let mut newest = self.newest.lock(rt);
        let NewRules { setup, text } = reread(
            alloc,
            rt,
            self.source,
            self.first,
            self.connections,
        )?;
        if self.versions.count() >= MOST_VERSIONS {
            return Err(NotReloaded::TooOften);
        }
        let Some(server) = setup.server else {
            unreachable!();
        };
        let server = socket_address(server);
        let reloaded = Reloaded {
            version: self.version().saturating_add(1),
            rules: setup.rules.len(),
            server,
        };
        // All memory first: what is done isn't answered by a fault.
        let said = format!(in alloc; "Reloaded: {reloaded}.")?;
        answer.extend_from_slice(said.as_bytes())?;
        let server = format!(in alloc; "{server}")?;
        if self
            .versions
            .publish(rt, Version { setup, server })
            .is_err()
        {
            return Err(NotReloaded::Memory);
        }
        let former = match &*newest {
            Some(text) => text.as_slice(),
            None => self.first_text,
        };
        tell_changes(alloc, rt, former, text.as_slice());
        *newest = Some(text);
        Ok(reloaded)
    }
}
