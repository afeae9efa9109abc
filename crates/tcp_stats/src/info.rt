//! The answer to `show info`; the stats socket gives it.

ghost use Rattle.std.specs.Prelude.{◌≡◌, ◌++◌, OnOk};
ghost use Rattle.std.specs.List.{flat_map};
ghost use Rattle.tcp_stats.specs.Info.{info, info_line, info_text};
ghost use Rattle.tcp_stats.specs.InfoFields.{info_field, info_place, info_tags, json_info, json_text, text_in, typed_info, typed_text};
ghost use Rattle.tcp_stats.specs.Typed.{seen_field};
ghost use Rattle.tcp_stats.specs.Values.{seen_value};

use crate::tags::{Nature, Origin, Scope, Tags};
use crate::typed::{Field, Format};
use crate::value::{Value, push_value};
use crate::{Count, Snapshot};
use base_sequence::NoMemory;

/// A line of `show info`. Names and order are HAProxy's (Management Guide 2.6, `show info`).
#[derive(Clone, Copy)]
enum Info {
    Name,
    Version,
    ReleaseDate,
    Nbthread,
    Nbproc,
    ProcessNum,
    Pid,
    Uptime,
    UptimeSec,
    Maxconn,
    HardMaxconn,
    CurrConns,
    CumConns,
    CumReq,
    Maxpipes,
    PipesUsed,
    PipesFree,
    ConnRate,
    ConnRateLimit,
    MaxConnRate,
    SessRate,
    SessRateLimit,
    MaxSessRate,
    Tasks,
    RunQueue,
    Node,
    Stopping,
    TotalBytesOut,
}

impl Info {
    const ALL: [Info; 28] = [
        Info::Name,
        Info::Version,
        Info::ReleaseDate,
        Info::Nbthread,
        Info::Nbproc,
        Info::ProcessNum,
        Info::Pid,
        Info::Uptime,
        Info::UptimeSec,
        Info::Maxconn,
        Info::HardMaxconn,
        Info::CurrConns,
        Info::CumConns,
        Info::CumReq,
        Info::Maxpipes,
        Info::PipesUsed,
        Info::PipesFree,
        Info::ConnRate,
        Info::ConnRateLimit,
        Info::MaxConnRate,
        Info::SessRate,
        Info::SessRateLimit,
        Info::MaxSessRate,
        Info::Tasks,
        Info::RunQueue,
        Info::Node,
        Info::Stopping,
        Info::TotalBytesOut,
    ];

    /// Its name and its value.
    fn row<'a>(self, now: &Snapshot<'a>) -> (&'static str, Value<'a>)
        ensures name { result.0.now ≡ (info now.now self).name }
        ensures value { seen_value result.1 ≡ (info now.now self).value }
    {
        match self {
            Info::Name => ("Name", Value::Word("stickd")),
            Info::Version => ("Version", Value::Word(now.version)),
            Info::ReleaseDate => ("Release_date", Value::Word(now.release_date)),
            Info::Nbthread => ("Nbthread", Value::Number(now.threads)),
            Info::Nbproc => ("Nbproc", Value::Number(1)),
            Info::ProcessNum => ("Process_num", Value::Number(1)),
            Info::Pid => ("Pid", Value::Number(u64::from(now.pid))),
            Info::Uptime => ("Uptime", Value::Span(now.uptime_ms / 1_000)),
            Info::UptimeSec => ("Uptime_sec", Value::Number(now.uptime_ms / 1_000)),
            Info::Maxconn => ("Maxconn", Value::Number(now.limit)),
            Info::HardMaxconn => ("Hard_maxconn", Value::Number(now.limit)),
            Info::CurrConns => ("CurrConns", Value::Number(now.open)),
            Info::CumConns => ("CumConns", now.number(Count::Accepted)),
            Info::CumReq => ("CumReq", now.number(Count::Admitted)),
            Info::Maxpipes => ("Maxpipes", Value::Number(0)),
            Info::PipesUsed => ("PipesUsed", Value::Number(0)),
            Info::PipesFree => ("PipesFree", Value::Number(0)),
            Info::ConnRate => ("ConnRate", Value::Number(now.connection_rate.last)),
            Info::ConnRateLimit => ("ConnRateLimit", Value::Number(0)),
            Info::MaxConnRate => ("MaxConnRate", Value::Number(now.connection_rate.most)),
            Info::SessRate => ("SessRate", Value::Number(now.session_rate.last)),
            Info::SessRateLimit => ("SessRateLimit", Value::Number(0)),
            Info::MaxSessRate => ("MaxSessRate", Value::Number(now.session_rate.most)),
            Info::Tasks => ("Tasks", Value::Number(now.open)),
            Info::RunQueue => ("Run_queue", Value::Number(0)),
            Info::Node => ("node", Value::Word(now.node)),
            Info::Stopping => ("Stopping", Value::Number(u64::from(now.is_draining))),
            Info::TotalBytesOut => ("TotalBytesOut", now.number(Count::BytesOut)),
        }
    }

    /// Its place among HAProxy's lines.
    fn place(self) -> u64
        ensures { result ≡ info_place self }
    {
        match self {
            Info::Name => 0,
            Info::Version => 1,
            Info::ReleaseDate => 2,
            Info::Nbthread => 3,
            Info::Nbproc => 4,
            Info::ProcessNum => 5,
            Info::Pid => 6,
            Info::Uptime => 7,
            Info::UptimeSec => 8,
            Info::Maxconn => 15,
            Info::HardMaxconn => 16,
            Info::CurrConns => 17,
            Info::CumConns => 18,
            Info::CumReq => 19,
            Info::Maxpipes => 23,
            Info::PipesUsed => 24,
            Info::PipesFree => 25,
            Info::ConnRate => 26,
            Info::ConnRateLimit => 27,
            Info::MaxConnRate => 28,
            Info::SessRate => 29,
            Info::SessRateLimit => 30,
            Info::MaxSessRate => 31,
            Info::Tasks => 47,
            Info::RunQueue => 48,
            Info::Node => 50,
            Info::Stopping => 52,
            Info::TotalBytesOut => 61,
        }
    }

    /// What its value is.
    fn tags(self) -> Tags
        ensures { result ≡ info_tags self }
    {
        match self {
            Info::Name | Info::Version | Info::ReleaseDate => Tags::new(
                Origin::Product,
                Nature::Output,
                Scope::Service,
            ),
            Info::Nbthread | Info::Nbproc => Tags::new(
                Origin::Config,
                Nature::Gauge,
                Scope::Service,
            ),
            Info::ProcessNum => Tags::new(Origin::Key, Nature::Gauge, Scope::Process),
            Info::Pid => Tags::new(Origin::Status, Nature::Gauge, Scope::Process),
            Info::Uptime | Info::UptimeSec => Tags::new(
                Origin::Metric,
                Nature::Duration,
                Scope::Process,
            ),
            Info::Maxconn
            | Info::HardMaxconn
            | Info::Maxpipes
            | Info::ConnRateLimit
            | Info::SessRateLimit => Tags::new(Origin::Config, Nature::Limit, Scope::Process),
            Info::CurrConns
            | Info::PipesUsed
            | Info::PipesFree
            | Info::Tasks
            | Info::RunQueue
            | Info::Stopping => Tags::new(Origin::Metric, Nature::Gauge, Scope::Process),
            Info::CumConns | Info::CumReq | Info::TotalBytesOut => Tags::new(
                Origin::Metric,
                Nature::Counter,
                Scope::Process,
            ),
            Info::ConnRate | Info::SessRate | Info::MaxSessRate => Tags::new(
                Origin::Metric,
                Nature::Rate,
                Scope::Process,
            ),
            Info::MaxConnRate => Tags::new(Origin::Metric, Nature::Max, Scope::Process),
            Info::Node => Tags::new(Origin::Config, Nature::Output, Scope::Service),
        }
    }

    /// Its value with all that is said of it.
    fn field<'a>(self, now: &Snapshot<'a>) -> Field<'a>
        ensures { seen_field result ≡ info_field now.now self }
    {
        let (name, value) = self.row(now);
        Field {
            place: self.place(),
            name,
            tags: self.tags(),
            value,
        }
    }

    /// Appends its line.
    #[tactic(auto, unfolding(crate::specs::Info::info_line))]
    fn push(self, text: &mut Vec<u8>, now: &Snapshot<'_>) -> Result<(), NoMemory>
        ensures { OnOk result (text.new.items ≡ text.old.items ++ info_line now.now self) }
    {
        let (name, value) = self.row(now);
        text.extend_from_slice(name.as_bytes())?;
        text.extend_from_slice(b": ")?;
        push_value(text, value)?;
        text.push(b'\n')?;
        Ok(())
    }
}

/// Appends lines, one behind the other.
fn push_lines(text: &mut Vec<u8>, lines: &[Info], now: &Snapshot<'_>) -> Result<(), NoMemory>
    ensures { OnOk result (text.new.items ≡ text.old.items ++ flat_map (info_line now.now) lines.now) }
{
    for line in lines {
        line.push(text, now)?;
    }
    Ok(())
}

/// Appends typed lines, one behind the other.
fn push_typed_lines(text: &mut Vec<u8>, lines: &[Info], now: &Snapshot<'_>) -> Result<(), NoMemory>
    ensures { OnOk result (text.new.items ≡ text.old.items ++ flat_map (typed_info now.now) lines.now) }
{
    for line in lines {
        line.field(now).push_typed(text)?;
    }
    Ok(())
}

/// Appends a line's object of JSON, behind a comma where it isn't the first.
#[tactic(auto, unfolding(crate::specs::InfoFields::json_info))]
fn push_json_info(text: &mut Vec<u8>, line: Info, now: &Snapshot<'_>) -> Result<(), NoMemory>
    ensures { OnOk result (text.new.items ≡ text.old.items ++ json_info now.now line) }
{
    text.extend_from_slice(if line.place() == 0 { b"{" } else { b",{" })?;
    line.field(now).push_json(text)?;
    Ok(())
}

/// Appends objects of JSON, with commas between.
fn push_json_lines(text: &mut Vec<u8>, lines: &[Info], now: &Snapshot<'_>) -> Result<(), NoMemory>
    ensures { OnOk result (text.new.items ≡ text.old.items ++ flat_map (json_info now.now) lines.now) }
{
    for line in lines {
        push_json_info(text, *line, now)?;
    }
    Ok(())
}

/// Appends the answer to `show info` in a format: a line for each of its names, or an array of JSON, and an empty line.
pub fn push_info(text: &mut Vec<u8>, now: &Snapshot<'_>, format: Format) -> Result<(), NoMemory>
    ensures { OnOk result (text.new.items ≡ text.old.items ++ text_in format now.now) }
{
    match format {
        Format::Plain => push_plain_info(text, now),
        Format::Typed => push_typed_info(text, now),
        Format::Json => push_json_array(text, now),
    }
}

/// Appends `NAME: VALUE` lines, and an empty line.
fn push_plain_info(text: &mut Vec<u8>, now: &Snapshot<'_>) -> Result<(), NoMemory>
    ensures { OnOk result (text.new.items ≡ text.old.items ++ info_text now.now) }
{
    push_lines(text, &Info::ALL, now)?;
    text.push(b'\n')?;
    Ok(())
}

/// Appends typed lines, and an empty line.
fn push_typed_info(text: &mut Vec<u8>, now: &Snapshot<'_>) -> Result<(), NoMemory>
    ensures { OnOk result (text.new.items ≡ text.old.items ++ typed_text now.now) }
{
    push_typed_lines(text, &Info::ALL, now)?;
    text.push(b'\n')?;
    Ok(())
}

/// Appends an array of objects, and an empty line.
fn push_json_array(text: &mut Vec<u8>, now: &Snapshot<'_>) -> Result<(), NoMemory>
    ensures { OnOk result (text.new.items ≡ text.old.items ++ json_text now.now) }
{
    text.push(b'[')?;
    push_json_lines(text, &Info::ALL, now)?;
    text.extend_from_slice(b"]\n\n")?;
    Ok(())
}
