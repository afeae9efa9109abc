//! The proxy at work: the tables of a setup, shared by its listener's workers, command socket and housekeeping; `stickd` runs it.
#![tactic(auto)]

mod answering;
mod asks;
mod binding;
mod changed_lines;
mod counted;
mod ending;
mod handing;
mod housekeeping;
mod instruments;
mod keeping;
mod last_words;
mod listeners;
mod loading;
mod next_version;
mod opening;
mod places;
mod plan;
mod reloading;
mod reporting;
mod rereading;
mod running;
mod running_program;
mod saver;
mod service_threads;
mod serving;
mod shared;
mod sockets;
mod start_warnings;
mod table_end;
mod timetable;
mod trust;

pub use plan::{
    About, KeepPlan, METRICS_CLIENTS, MOST_STATS_SOCKETS, Plan, STATS_CLIENTS, SocketPlan, Source,
    StatsPlan, WatchPlan,
};
pub use running::{run_pooled, run_proxy};
pub use shared::ProxyRuntime;
