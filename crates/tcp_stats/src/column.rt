//! The columns of `show stat` that have a value here, each with its name and its value in a row; `stat` prints by them.

ghost use Rattle.std.specs.Prelude.{◌≡◌};
ghost use Rattle.std.specs.List.{find};
ghost use Rattle.tcp_stats.specs.Stat.{stat_name, stat_value};
ghost use Rattle.tcp_stats.specs.StatFields as spec;
ghost use Rattle.tcp_stats.specs.StatFields.{stat_field, stat_place, stat_tags};
ghost use Rattle.tcp_stats.specs.Typed.{seen_field};
ghost use Rattle.tcp_stats.specs.Values.{seen_value};

use crate::stat_row::StatRow;
use crate::tags::{Nature, Origin, Scope, Tags};
use crate::typed::Field;
use crate::value::Value;
use crate::{Count, Snapshot};

/// A column that has a value in some row. Names are HAProxy's (Management Guide 2.6, `show stat`).
#[derive(Clone, Copy)]
pub(crate) enum Column {
    Pxname,
    Svname,
    Qcur,
    Qmax,
    Scur,
    Smax,
    Slim,
    Stot,
    Bin,
    Bout,
    Dreq,
    Dresp,
    Econ,
    Status,
    Weight,
    Act,
    Bck,
    Pid,
    Iid,
    Sid,
    Lbtot,
    Kind,
    Rate,
    RateLim,
    RateMax,
    Addr,
    Mode,
    ConnRate,
    ConnRateMax,
    ConnTot,
    Dcon,
    Dses,
    End,
}

/// Those columns.
pub(crate) static COLUMNS: [Column; 33] = [
    Column::Pxname,
    Column::Svname,
    Column::Qcur,
    Column::Qmax,
    Column::Scur,
    Column::Smax,
    Column::Slim,
    Column::Stot,
    Column::Bin,
    Column::Bout,
    Column::Dreq,
    Column::Dresp,
    Column::Econ,
    Column::Status,
    Column::Weight,
    Column::Act,
    Column::Bck,
    Column::Pid,
    Column::Iid,
    Column::Sid,
    Column::Lbtot,
    Column::Kind,
    Column::Rate,
    Column::RateLim,
    Column::RateMax,
    Column::Addr,
    Column::Mode,
    Column::ConnRate,
    Column::ConnRateMax,
    Column::ConnTot,
    Column::Dcon,
    Column::Dses,
    Column::End,
];

impl Column {
    /// Its name.
    pub(crate) fn name(self) -> &'static str
        ensures { result.now ≡ stat_name self }
    {
        match self {
            Column::Pxname => "pxname",
            Column::Svname => "svname",
            Column::Qcur => "qcur",
            Column::Qmax => "qmax",
            Column::Scur => "scur",
            Column::Smax => "smax",
            Column::Slim => "slim",
            Column::Stot => "stot",
            Column::Bin => "bin",
            Column::Bout => "bout",
            Column::Dreq => "dreq",
            Column::Dresp => "dresp",
            Column::Econ => "econ",
            Column::Status => "status",
            Column::Weight => "weight",
            Column::Act => "act",
            Column::Bck => "bck",
            Column::Pid => "pid",
            Column::Iid => "iid",
            Column::Sid => "sid",
            Column::Lbtot => "lbtot",
            Column::Kind => "type",
            Column::Rate => "rate",
            Column::RateLim => "rate_lim",
            Column::RateMax => "rate_max",
            Column::Addr => "addr",
            Column::Mode => "mode",
            Column::ConnRate => "conn_rate",
            Column::ConnRateMax => "conn_rate_max",
            Column::ConnTot => "conn_tot",
            Column::Dcon => "dcon",
            Column::Dses => "dses",
            Column::End => "-",
        }
    }

    /// Its value in a row.
    pub(crate) fn value<'a>(self, row: StatRow, now: &Snapshot<'a>) -> Value<'a>
        ensures { seen_value result ≡ stat_value now.now row self }
    {
        match self {
            Column::Pxname => Value::Name(now.frontend),
            Column::Svname => row.name(now),
            Column::Qcur | Column::Qmax | Column::Bck => row.unless_frontend(Value::Number(0)),
            Column::Scur => Value::Number(now.open),
            Column::Smax => Value::Number(now.most),
            Column::Slim => row.at_frontend(Value::Number(now.limit)),
            Column::Stot => now.number(Count::Admitted),
            Column::Bin => now.number(Count::BytesIn),
            Column::Bout => now.number(Count::BytesOut),
            Column::Dreq => row.unless_server(Value::Number(0)),
            Column::Dresp => Value::Number(0),
            Column::Econ => row.unless_frontend(Value::Number(now.failed_connects())),
            Column::Status => row.status(now.is_draining),
            Column::Weight | Column::Act => row.unless_frontend(Value::Number(1)),
            Column::Pid => Value::Number(1),
            Column::Iid => Value::Number(2),
            Column::Sid => Value::Number(row.service_number()),
            Column::Lbtot => row.unless_frontend(now.number(Count::Admitted)),
            Column::Kind => Value::Number(row.type_number()),
            Column::Rate => Value::Number(now.session_rate.last),
            Column::RateMax => Value::Number(now.session_rate.most),
            Column::Addr => row.at_server(Value::Name(now.server)),
            Column::Mode => Value::Word("tcp"),
            Column::ConnRate => row.at_frontend(Value::Number(now.connection_rate.last)),
            Column::ConnRateMax => row.at_frontend(Value::Number(now.connection_rate.most)),
            Column::ConnTot => row.at_frontend(now.number(Count::Accepted)),
            Column::Dcon => row.at_frontend(now.number(Count::Rejected)),
            Column::RateLim | Column::Dses => row.at_frontend(Value::Number(0)),
            Column::End => Value::Word("-"),
        }
    }

    /// Its place among HAProxy's columns.
    pub(crate) fn place(self) -> u64
        ensures { result ≡ stat_place self }
    {
        match self {
            Column::Pxname => 0,
            Column::Svname => 1,
            Column::Qcur => 2,
            Column::Qmax => 3,
            Column::Scur => 4,
            Column::Smax => 5,
            Column::Slim => 6,
            Column::Stot => 7,
            Column::Bin => 8,
            Column::Bout => 9,
            Column::Dreq => 10,
            Column::Dresp => 11,
            Column::Econ => 13,
            Column::Status => 17,
            Column::Weight => 18,
            Column::Act => 19,
            Column::Bck => 20,
            Column::Pid => 26,
            Column::Iid => 27,
            Column::Sid => 28,
            Column::Lbtot => 30,
            Column::Kind => 32,
            Column::Rate => 33,
            Column::RateLim => 34,
            Column::RateMax => 35,
            Column::Addr => 73,
            Column::Mode => 75,
            Column::ConnRate => 77,
            Column::ConnRateMax => 78,
            Column::ConnTot => 79,
            Column::Dcon => 81,
            Column::Dses => 82,
            Column::End => 102,
        }
    }

    /// What its values are in a row.
    pub(crate) fn tags(self, row: StatRow) -> Tags
        ensures { result ≡ stat_tags row self }
    {
        match self {
            Column::Pxname | Column::Svname => Tags::new(Origin::Key, Nature::Name, Scope::Service),
            Column::Qcur | Column::Scur => Tags::new(Origin::Metric, Nature::Gauge, Scope::Process),
            Column::Qmax | Column::Smax | Column::ConnRateMax => {
                Tags::new(Origin::Metric, Nature::Max, Scope::Process)
            }
            Column::Slim | Column::RateLim => Tags::new(
                Origin::Config,
                Nature::Limit,
                Scope::Process,
            ),
            Column::Status => Tags::new(Origin::Status, Nature::Gauge, Scope::Process),
            Column::Weight => Tags::new(Origin::Metric, Nature::Average, Scope::Process),
            Column::Act | Column::Bck => row.server_tags(),
            Column::Pid => Tags::new(Origin::Key, Nature::Gauge, Scope::Process),
            Column::Iid | Column::Sid => Tags::new(Origin::Key, Nature::Gauge, Scope::Service),
            Column::Kind | Column::Addr | Column::Mode | Column::End => {
                Tags::new(Origin::Config, Nature::Gauge, Scope::Service)
            }
            Column::Rate => row.rate_tags(Nature::Rate),
            Column::RateMax => row.rate_tags(Nature::Max),
            Column::ConnRate => Tags::new(Origin::Metric, Nature::Rate, Scope::Process),
            _ => Tags::new(Origin::Metric, Nature::Counter, Scope::Process),
        }
    }

    /// Whether it has no value of its own, but marks where the columns of HAProxy's modules begin.
    pub(crate) fn is_mark(self) -> bool
        ensures { result ≡ spec.is_mark self }
    {
        matches!(self, Column::End)
    }

    /// A row's value with all that is said of it.
    pub(crate) fn field<'a>(self, row: StatRow, now: &Snapshot<'a>) -> Field<'a>
        ensures { seen_field result ≡ stat_field now.now row self }
    {
        Field {
            place: self.place(),
            name: self.name(),
            tags: self.tags(row),
            value: self.value(row, now),
        }
    }
}
