//! What tells of the program, by its tables and what it knows of itself; the services of this crate and the reports of `tcp_proxy`
//! have one each.

use crate::facts::{count_each, facts_of};
use crate::program::Program;
use base_clock::Clock;
use base_sequence::NoMemory;
use shard_book::{Keeper, Named};
use std::alloc::Global;
use table_texts::Message;
use tcp_stats::{
    Format, Snapshot, StatQuery, push_info, push_metrics, push_process, push_report, push_stat,
};

/// What is told.
#[derive(Clone, Copy)]
pub enum Told<'a> {
    /// The answer to `show info`, in a format.
    Info(Format),
    /// The answer to `show stat`, of some rows, in a format.
    Stat(StatQuery<'a>),
    /// The program's own metrics, as Prometheus reads them.
    Metrics,
    /// One line of a report.
    Report,
}

/// The tables of a program, each asked by a seat of its own, a clock, and the program.
#[derive(Drop)]
pub struct Teller<'p, K, C, P> {
    pub alloc: Global,
    pub tables: Vec<Named<K>>,
    pub clock: C,
    pub program: &'p P,
}

/// Appends what is told of a program.
fn push_told(text: &mut Vec<u8>, told: Told<'_>, snapshot: &Snapshot<'_>) -> Result<(), NoMemory> {
    match told {
        Told::Info(format) => push_info(text, snapshot, format),
        Told::Stat(query) => push_stat(text, snapshot, &query),
        Told::Metrics => push_metrics(text, snapshot),
        Told::Report => push_report(text, snapshot),
    }
}

impl<'p, K: Keeper, C: Clock, P: Program> Teller<'p, K, C, P> {
    /// What is told of the program now. A message where a table can't be asked, or there is no memory for it.
    pub fn tell(&mut self, told: Told<'_>) -> Result<Vec<u8>, Message> {
        let used = count_each(self.alloc, self.tables.as_mut_slice(), &mut self.clock)?;
        let tables = self.tables.as_slice();
        let Ok(facts) = facts_of(self.alloc, tables, used.as_slice()) else {
            return Err(Message::OutOfMemory);
        };
        let snapshot = self.program.snapshot(facts.as_slice());
        let mut text = Vec::new(self.alloc);
        if push_told(&mut text, told, &snapshot).is_err() {
            return Err(Message::OutOfMemory);
        }
        Ok(text)
    }

    /// All metrics, as Prometheus reads them: those of the program, and those of its process after them.
    pub fn tell_metrics(&mut self) -> Result<Vec<u8>, Message> {
        let mut text = self.tell(Told::Metrics)?;
        if push_process(&mut text, &self.program.process()).is_err() {
            return Err(Message::OutOfMemory);
        }
        Ok(text)
    }
}
