//! What the running program tells of itself and is told: on the stats socket, as HAProxy's is spoken, by HTTP for Prometheus, and to and
//! from its service manager; `tcp_proxy` and `stickd` call it.
//!
//! - `StatsService` and `MetricsService` serve clients, and `LimitedService` those of a command socket below the level of an administrator;
//!   `permission_of`, `permission_of_filters` and `may_ask` say what a `Level` permits. The texts are those of `tcp_stats`, and a command on
//!   a table is answered as on the command socket, by `table_cli`. `Program` is what is asked of the program itself.
//! - Of the service manager what decides is pure: `count_pending` of a status, `read_handed` of the environment, `refusal_of` of what is
//!   handed over, `NotifyAddress` and the texts of messages, and the `Rhythm` in which something is done. `ProcessStatus`, `Notifier`,
//!   `look_at`, `take_tcp`, `take_unix` and `read_surroundings` are the thin calls round it.
#![tactic(auto)]

mod conversation;
mod facts;
mod handed;
mod level;
mod limited;
mod metrics;
mod notifier;
mod notify_address;
mod pending;
mod permitted;
mod process_facts;
mod process_stat;
mod process_status;
mod program;
mod rhythm;
mod stats;
mod surroundings;
mod taking;
mod teller;
mod texts;
mod watchdog;

pub use conversation::{Conversation, Stay};
pub use facts::{count_each, facts_of};
pub use handed::{
    FIRST_HANDED, HandedFault, HandedSocket, MOST_HANDED, Purpose, Refusal, SocketFacts,
    first_handed, has_handed, purpose_of, read_handed, refusal_of,
};
pub use level::{Level, Permission, level_named, may_ask, permission_of, permission_of_filters};
pub use limited::LimitedService;
pub use metrics::MetricsService;
pub use notifier::Notifier;
pub use notify_address::{NotifyAddress, read_address};
pub use pending::{StopSignal, count_pending, is_blocked};
pub use process_facts::ask_process;
pub use process_stat::{ProcessStat, ms_of, read_stat};
pub use process_status::ProcessStatus;
pub use program::{Program, Shutdown};
pub use rhythm::Rhythm;
pub use stats::StatsService;
pub use surroundings::{Surroundings, read_surroundings};
pub use taking::{look_at, take_tcp, take_unix};
pub use teller::{Teller, Told};
pub use texts::{Notice, push_status};
pub use watchdog::read_watchdog;
