//! The rows of `show stat`, and what differs between them; `column` asks it for values.

ghost use Rattle.std.specs.Prelude.{◌≡◌};
ghost use Rattle.tcp_stats.specs.Stat as spec;
ghost use Rattle.tcp_stats.specs.StatFields as spec_typed;
ghost use Rattle.tcp_stats.specs.Stat.{row_name, row_status};
ghost use Rattle.tcp_stats.specs.Values.{seen_value};

use crate::Snapshot;
use crate::tags::{Nature, Origin, Scope, Tags};
use crate::value::Value;

/// What a row of `show stat` tells of.
#[derive(Clone, Copy)]
pub(crate) enum StatRow {
    /// The side that takes clients.
    Frontend,
    /// The server.
    Server,
    /// All servers of the proxy, of which there is one.
    Backend,
}

impl StatRow {
    /// All rows, in their order.
    pub(crate) const ALL: [StatRow; 3] = [StatRow::Frontend, StatRow::Server, StatRow::Backend];

    /// A value that the listening side alone has.
    pub(crate) fn at_frontend<'a>(self, value: Value<'a>) -> Value<'a>
        ensures { seen_value result ≡ spec.at_frontend self (seen_value value.entry) }
    {
        match self {
            StatRow::Frontend => value,
            StatRow::Server | StatRow::Backend => Value::Nothing,
        }
    }

    /// A value that the server alone has.
    pub(crate) fn at_server<'a>(self, value: Value<'a>) -> Value<'a>
        ensures { seen_value result ≡ spec.at_server self (seen_value value.entry) }
    {
        match self {
            StatRow::Server => value,
            StatRow::Frontend | StatRow::Backend => Value::Nothing,
        }
    }

    /// A value that the listening side has not.
    pub(crate) fn unless_frontend<'a>(self, value: Value<'a>) -> Value<'a>
        ensures { seen_value result ≡ spec.unless_frontend self (seen_value value.entry) }
    {
        match self {
            StatRow::Frontend => Value::Nothing,
            StatRow::Server | StatRow::Backend => value,
        }
    }

    /// A value that the server has not.
    pub(crate) fn unless_server<'a>(self, value: Value<'a>) -> Value<'a>
        ensures { seen_value result ≡ spec.unless_server self (seen_value value.entry) }
    {
        match self {
            StatRow::Server => Value::Nothing,
            StatRow::Frontend | StatRow::Backend => value,
        }
    }

    /// What the row is called.
    pub(crate) fn name<'a>(self, now: &Snapshot<'a>) -> Value<'a>
        ensures { seen_value result ≡ row_name now.now self }
    {
        match self {
            StatRow::Frontend => Value::Word("FRONTEND"),
            StatRow::Server => Value::Name(now.server_name),
            StatRow::Backend => Value::Word("BACKEND"),
        }
    }

    /// Whether what the row tells of is at work.
    pub(crate) fn status(self, is_draining: bool) -> Value<'static>
        ensures { seen_value result ≡ row_status is_draining self }
    {
        match self {
            StatRow::Frontend => Value::Word(if is_draining { "STOP" } else { "OPEN" }),
            StatRow::Server => Value::Word("no check"),
            StatRow::Backend => Value::Word("UP"),
        }
    }

    /// HAProxy's number for what kind the row is of.
    pub(crate) fn type_number(self) -> u64
        ensures { result ≡ spec.type_number self }
    {
        match self {
            StatRow::Frontend => 0,
            StatRow::Server => 2,
            StatRow::Backend => 1,
        }
    }

    /// The number of the server among those of its proxy.
    pub(crate) fn service_number(self) -> u64
        ensures { result ≡ spec.service_number self }
    {
        match self {
            StatRow::Server => 1,
            StatRow::Frontend | StatRow::Backend => 0,
        }
    }

    /// Its letter in the typed output.
    pub(crate) fn letter(self) -> u8
        ensures { result ≡ spec_typed.row_letter self }
    {
        match self {
            StatRow::Frontend => b'F',
            StatRow::Server => b'S',
            StatRow::Backend => b'B',
        }
    }

    /// Its word in the JSON output.
    pub(crate) fn word(self) -> &'static str
        ensures { result.now ≡ spec_typed.row_word self }
    {
        match self {
            StatRow::Frontend => "Frontend",
            StatRow::Server => "Server",
            StatRow::Backend => "Backend",
        }
    }

    /// What the counts of servers are: the state of the one, or a gauge of all.
    pub(crate) fn server_tags(self) -> Tags
        ensures { result ≡ spec_typed.server_tags self }
    {
        match self {
            StatRow::Frontend | StatRow::Backend => Tags::new(
                Origin::Metric,
                Nature::Gauge,
                Scope::Process,
            ),
            StatRow::Server => Tags::new(Origin::Status, Nature::Gauge, Scope::Process),
        }
    }

    /// What rates are: of all servers a gauge, and else as they are called.
    pub(crate) fn rate_tags(self, nature: Nature) -> Tags
        ensures { result ≡ spec_typed.rate_tags nature self }
    {
        match self {
            StatRow::Backend => Tags::new(Origin::Metric, Nature::Gauge, Scope::Process),
            StatRow::Frontend | StatRow::Server => Tags::new(
                Origin::Metric,
                nature,
                Scope::Process,
            ),
        }
    }
}
