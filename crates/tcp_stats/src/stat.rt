//! The answer to `show stat`; the stats socket gives it.

ghost use Rattle.std.specs.Prelude.{◌≡◌, ◌++◌, [], OnOk};
ghost use Rattle.std.specs.List.{flat_map, find};
ghost use Rattle.base_lines.specs.Parts.{parts, is_byte};
ghost use Rattle.tcp_stats.specs.Stat as spec;
ghost use Rattle.tcp_stats.specs.Stat.{is_called, value_if, field_text, row_text};
ghost use Rattle.tcp_stats.specs.StatQueries.{seen_query};
ghost use Rattle.tcp_stats.specs.StatTexts as spec_texts;
ghost use Rattle.tcp_stats.specs.StatTexts.{plain_if, stat_text, typed_if};
ghost use Rattle.tcp_stats.specs.Values.{seen_value};

use crate::Snapshot;
use crate::column::{COLUMNS, Column};
use crate::messages::StatsMessage;
use crate::stat_query::StatQuery;
use crate::stat_row::StatRow;
use crate::stat_typed::{push_json_row, push_typed_row};
use crate::typed::Format;
use crate::value::{Value, push_value};
use base_lines::Parts;
use base_sequence::NoMemory;

/// The names of the columns, with commas between: HAProxy's, up to where those of its modules begin.
#[tactic(auto, unfolding(crate::specs::Stat::column_names))]
fn column_names() -> &'static str
    ensures { result.now ≡ spec.column_names }
{
    "pxname,svname,qcur,qmax,scur,smax,slim,stot,bin,bout,dreq,dresp,ereq,econ,eresp,wretr,wredis,status,weight,act,bck,chkfail,chkdown,lastchg,downtime,qlimit,pid,iid,sid,throttle,lbtot,tracked,type,rate,rate_lim,rate_max,check_status,check_code,check_duration,hrsp_1xx,hrsp_2xx,hrsp_3xx,hrsp_4xx,hrsp_5xx,hrsp_other,hanafail,req_rate,req_rate_max,req_tot,cli_abrt,srv_abrt,comp_in,comp_out,comp_byp,comp_rsp,lastsess,last_chk,last_agt,qtime,ctime,rtime,ttime,agent_status,agent_code,agent_duration,check_desc,agent_desc,check_rise,check_fall,check_health,agent_rise,agent_fall,agent_health,addr,cookie,mode,algo,conn_rate,conn_rate_max,conn_tot,intercepted,dcon,dses,wrew,connect,reuse,cache_lookups,cache_hits,srv_icur,src_ilim,qtime_max,ctime_max,rtime_max,ttime_max,eint,idle_conn_cur,safe_conn_cur,used_conn_cur,need_conn_est,uweight,agg_server_status,agg_server_check_status,agg_check_status,-"
}

/// The column of a name.
fn column_named(columns: &[Column], name: &[u8]) -> Option<Column>
    ensures { result ≡ find (is_called name.now) columns.now }
{
    for column in columns {
        if column.name().as_bytes() == name {
            return Some(*column);
        }
    }
    None
}

/// What a row has under a column's name: the value of the one of this name, or nothing.
fn value_under<'a>(column: Option<Column>, row: StatRow, now: &Snapshot<'a>) -> Value<'a>
    ensures { seen_value result ≡ value_if now.now row column }
{
    match column {
        Some(column) => column.value(row, now),
        None => Value::Nothing,
    }
}

/// Appends a row's field of a column.
#[tactic(auto, unfolding(crate::specs::Stat::field_text))]
fn push_field(
    text: &mut Vec<u8>,
    name: &[u8],
    row: StatRow,
    now: &Snapshot<'_>,
) -> Result<(), NoMemory>
    ensures { OnOk result (text.new.items ≡ text.old.items ++ field_text now.now row name.now) }
{
    push_value(text, value_under(column_named(&COLUMNS, name), row, now))?;
    text.push(b',')?;
    Ok(())
}

/// Appends the row's fields of columns, one behind the other.
fn push_fields(
    text: &mut Vec<u8>,
    mut names: Parts<'_>,
    row: StatRow,
    now: &Snapshot<'_>,
) -> Result<(), NoMemory>
    ensures { OnOk result (text.new.items ≡ text.old.items ++ flat_map (field_text now.now row) names.entry) }
{
    while let Some(name) = names.next() {
        push_field(text, name, row, now)?;
    }
    Ok(())
}

/// Appends a row.
#[tactic(auto, unfolding(crate::specs::Stat::row_text))]
fn push_row(text: &mut Vec<u8>, row: StatRow, now: &Snapshot<'_>) -> Result<(), NoMemory>
    ensures { OnOk result (text.new.items ≡ text.old.items ++ row_text now.now row) }
{
    push_fields(text, Parts::new(column_names().as_bytes(), b','), row, now)?;
    text.push(b'\n')?;
    Ok(())
}

/// Appends the rows that are asked for, in columns.
fn push_plain_rows(
    text: &mut Vec<u8>,
    rows: &[StatRow],
    query: &StatQuery<'_>,
    now: &Snapshot<'_>,
) -> Result<(), NoMemory>
    ensures { OnOk result (text.new.items ≡ text.old.items ++ flat_map (plain_if now.now (seen_query query.now)) rows.now) }
{
    for row in rows {
        if query.shows(now.frontend.as_bytes(), *row) {
            push_row(text, *row, now)?;
        }
    }
    Ok(())
}

/// Appends the rows that are asked for, a line for each value.
fn push_typed_rows(
    text: &mut Vec<u8>,
    rows: &[StatRow],
    query: &StatQuery<'_>,
    now: &Snapshot<'_>,
) -> Result<(), NoMemory>
    ensures { OnOk result (text.new.items ≡ text.old.items ++ flat_map (typed_if now.now (seen_query query.now)) rows.now) }
{
    for row in rows {
        if query.shows(now.frontend.as_bytes(), *row) {
            push_typed_row(text, *row, now)?;
        }
    }
    Ok(())
}

/// Appends the rows that are asked for as JSON, with commas between. The first one stands behind `mark`.
fn push_json_rows(
    text: &mut Vec<u8>,
    rows: &[StatRow],
    query: &StatQuery<'_>,
    now: &Snapshot<'_>,
) -> Result<(), NoMemory>
    ensures { OnOk result (text.new.items ≡ text.old.items ++ spec_texts.json_rows now.now (seen_query query.now) [] rows.now) }
{
    let mut mark = b"".as_slice();
    for row in rows {
        if !query.shows(now.frontend.as_bytes(), *row) {
            continue;
        }
        text.extend_from_slice(mark)?;
        push_json_row(text, *row, now)?;
        mark = b",";
    }
    Ok(())
}

/// Appends the answer to `show stat` in columns: their names, the rows, and an empty line.
fn push_columns(
    text: &mut Vec<u8>,
    query: &StatQuery<'_>,
    now: &Snapshot<'_>,
) -> Result<(), NoMemory>
    ensures { OnOk result (text.new.items ≡ text.old.items ++ spec_texts.plain_text now.now (seen_query query.now)) }
{
    text.extend_from_slice(b"# ")?;
    text.extend_from_slice(column_names().as_bytes())?;
    text.extend_from_slice(b",\n")?;
    push_plain_rows(text, &StatRow::ALL, query, now)?;
    text.push(b'\n')?;
    Ok(())
}

/// Appends the answer to `show stat` with a line for each value, and an empty line.
fn push_typed(text: &mut Vec<u8>, query: &StatQuery<'_>, now: &Snapshot<'_>) -> Result<(), NoMemory>
    ensures { OnOk result (text.new.items ≡ text.old.items ++ spec_texts.typed_text now.now (seen_query query.now)) }
{
    push_typed_rows(text, &StatRow::ALL, query, now)?;
    text.push(b'\n')?;
    Ok(())
}

/// Appends the answer to `show stat` as an array of JSON, and an empty line.
fn push_json(text: &mut Vec<u8>, query: &StatQuery<'_>, now: &Snapshot<'_>) -> Result<(), NoMemory>
    ensures { OnOk result (text.new.items ≡ text.old.items ++ spec_texts.json_text now.now (seen_query query.now)) }
{
    text.push(b'[')?;
    push_json_rows(text, &StatRow::ALL, query, now)?;
    text.extend_from_slice(b"]\n\n")?;
    Ok(())
}

/// Appends the answer to `show stat`: the rows that are asked for, in the format that is; or that there is no such proxy.
pub fn push_stat(
    text: &mut Vec<u8>,
    now: &Snapshot<'_>,
    query: &StatQuery<'_>,
) -> Result<(), NoMemory>
    ensures { OnOk result (text.new.items ≡ text.old.items ++ stat_text now.now (seen_query query.now)) }
{
    if !query.may_name(now.frontend.as_bytes()) {
        return StatsMessage::NoSuchProxy.push(text);
    }
    match query.format {
        Format::Plain => push_columns(text, query, now),
        Format::Typed => push_typed(text, query, now),
        Format::Json => push_json(text, query, now),
    }
}
