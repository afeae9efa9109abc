//! The commands on stick tables in shards, served; `table_socket` calls it for clients, `stickd_script` for lines, and
//! `tcp_proxy` makes the service.
//!
//! It says which shards a line asks, what their replies come to, and what it is answered. The commands are `show table`, `set
//! table` and `clear table` (HAProxy Management Guide 2.8). `table_texts` reads and prints them.
//!
//! What a table holds is also shown in the order in which its entries go, which no event of a table tells: `show_oldest_first`. And the
//! entries that match several filters are shown, or removed, by `answer_filtered`: the table picks them by the first, and their rows by
//! the others.
//!
//! What tables held is loaded by the same commands, from the lines that were saved of them. A line is the ms that an entry has
//! left, and the command that makes it: `60000 cmd set table t key 10.0.0.1 data.gpc0 5`. It is answered by a clock that stands at
//! the moment at which the entry was refreshed. All such moments lie before the one at which the tables go on. Loading purges nothing:
//! an entry that finds its shard full is skipped and told. A file whose last line doesn't say how many entries it has, as its first
//! line promises, is cut, and nothing of it is loaded.
#![tactic(auto)]

mod clear_matching;
mod fault;
pub mod laws;
mod lives;
mod load_fault;
mod loading;
mod matching;
mod misfits;
mod oldest_first;
mod room;
mod saved_end;
mod saved_line;
mod serve;
mod service;
mod shards;
mod show_matching;
mod stamped;
mod tables;
mod unplaced;

pub use clear_matching::Deed;
pub use fault::{CliFault, CliFaultKind};
pub use lives::{age, life_of, longest_life};
pub use load_fault::{LineFault, LoadFault};
pub use loading::load;
pub use misfits::Misfits;
pub use oldest_first::{answer_oldest_first, show_oldest_first};
pub use room::Room;
pub use saved_end::{END_MARK, FIRST_LINE, check_whole, promises_end};
pub use saved_line::{Line, read_line};
pub use serve::answer;
pub use service::CommandService;
pub use show_matching::answer_filtered;
pub use tables::count_entries;
pub use unplaced::{Unplaced, say_misfits, say_unplaced, unplaced_of};
