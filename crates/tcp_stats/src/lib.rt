//! What the proxy counts, and the texts that tell it: reports, HAProxy's `show info` and `show stat`, Prometheus' metrics; the
//! proxy's workers count by it, and its service threads print by it.
#![tactic(auto)]

mod cells;
mod column;
mod command;
mod count;
mod count_rows;
mod counts;
mod csv;
mod http;
mod info;
mod json_part;
mod last;
mod messages;
mod metrics;
mod process;
mod rate;
mod readings;
mod report;
mod snapshot;
mod stat;
mod stat_query;
mod stat_row;
mod stat_typed;
mod tags;
mod trouble;
mod typed;
mod value;

pub use cells::{Cells, Gauge};
pub use command::{StatsCommand, read_command};
pub use count::{COUNTS, Count};
pub use counts::Counts;
pub use http::{Extent, HttpRequest, MOST_BYTES, push_response, read_request};
pub use info::push_info;
pub use last::{LastTimes, Occasion};
pub use messages::{StatsMessage, push_help};
pub use metrics::push_metrics;
pub use process::{ProcessFacts, push_process};
pub use rate::Rate;
pub use report::push_report;
pub use snapshot::{Snapshot, TableFacts};
pub use stat::push_stat;
pub use stat_query::{Bound, EVERYTHING, StatQuery};
pub use trouble::{Trouble, push_trouble, troubles};
pub use typed::Format;
