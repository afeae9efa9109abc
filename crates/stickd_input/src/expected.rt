//! What may stand in a place of a line.

use std::fmt::{self, Display, Formatter, Write};

/// What may stand in a place of a line. It is printed as a sentence.
#[derive(Clone, Copy, Debug, PartialEq, Eq)]
pub(crate) enum Expected {
    /// A line's first word.
    Keyword,
    /// That word has no place here.
    NoPlace,
    /// A word without quotes.
    Plain,
    /// Nothing.
    End,
    Name,
    /// A section's name, which no other has.
    NewName,
    OneTable,
    OneServer,
    Mode,
    BindAddress,
    ServerAddress,
    /// A word of a line `stick-table`.
    Setting,
    /// The same where it stands a second time, or `len` in another place.
    SettingOnce,
    KeyType,
    Size,
    Expiry,
    Length,
    Datum,
    /// A datum that is there already, or is left out by another.
    DatumOnce,
    Period,
    Count,
    Connection,
    Action,
    Slot,
    Element,
    Value,
    Key,
    BehindKey,
    BehindAction,
    /// A section with a table.
    Table,
    /// The section's own table.
    OwnTable,
    Backend,
    /// An ACL that was declared.
    Acl,
    /// A brace that is a word of its own.
    Brace,
    Term,
    ClosingBrace,
    Criterion,
    Pattern,
    Number,
    Network,
    /// The criterion has no values.
    NoValue,
}

impl Expected {
    /// The words that may stand there, where they are few: of a word with parentheses what is before them.
    pub(crate) fn words(self) -> &'static [&'static str] {
        match self {
            Expected::Keyword => &KEYWORDS,
            Expected::Mode => &["tcp"],
            Expected::Setting => &["type", "len", "size", "expire", "nopurge", "store"],
            Expected::KeyType => &["ip", "ipv6", "integer", "string", "binary"],
            Expected::Datum => &DATA,
            Expected::Connection => &["connection"],
            Expected::Action => &ACTIONS,
            Expected::Key => &["src", "src_port", "dst_port", "int", "str"],
            Expected::BehindKey => &["table", "if", "unless"],
            Expected::BehindAction => &["if", "unless"],
            Expected::Criterion => &CRITERIA,
            Expected::Pattern => &["eq", "ge", "gt", "le", "lt"],
            _ => &[],
        }
    }

    /// What may stand there.
    fn text(self) -> &'static str {
        match self {
            Expected::Keyword => {
                "a line begins with frontend, backend, listen, bind, mode, server, default_backend, stick-table, acl or tcp-request"
            }
            Expected::NoPlace => {
                "it stands in the wrong section, before the first one, or a second time"
            }
            Expected::Plain => "a word has no quote, apostrophe, backslash or '$'",
            Expected::End => "nothing may stand here",
            Expected::Name => "NAME is made of letters, digits and '-_.:'",
            Expected::NewName => "a section above has this name",
            Expected::OneTable => "the section has a table already",
            Expected::OneServer => "the section has a server already",
            Expected::Mode => "the mode is tcp",
            Expected::BindAddress => {
                "ADDRESS:PORT is an IP address, '*' or nothing, ':' and a port of 1 to 65535"
            }
            Expected::ServerAddress => {
                "ADDRESS:PORT is an IP address, ':' and a port of 1 to 65535"
            }
            other => other.rule_text(),
        }
    }

    /// The same of what stands in tables and rules.
    fn rule_text(self) -> &'static str {
        match self {
            Expected::Setting =>
                "a table has 'type TYPE', 'size N', 'expire TIME', nopurge and 'store DATA'",
            Expected::SettingOnce => {
                "type, size, expire and nopurge stand once each, and 'len N' right behind 'type string' or 'type binary'"
            }
            Expected::KeyType => "TYPE is ip, ipv6, integer, string or binary",
            Expected::Size => "size N is 1 to 1g, with k, m or g behind the number or nothing",
            Expected::Expiry =>
                "TIME is 1ms to 2147483647ms, with us, ms, s, m, h or d behind the number or nothing",
            Expected::Length => "len N is 1 to 1024",
            Expected::Datum => {
                "DATA are gpt0, gpc0, gpc1, gpt(N), gpc(N), conn_cnt, conn_cur, sess_cnt, bytes_in_cnt, bytes_out_cnt, and with a period as (10s) gpc0_rate, gpc1_rate, conn_rate, sess_rate, bytes_in_rate and bytes_out_rate"
            }
            Expected::DatumOnce => {
                "a datum stands once, gpc(N) in place of gpc0 and gpc1, and gpt(N) in place of gpt0"
            }
            Expected::Period =>
                "a rate has its period behind it, as (10s), 1ms to 2147483647ms, and no other datum has one",
            Expected::Count => "an array has its count behind it, 1 to 100, as (2)",
            Expected::Connection => "rules are 'tcp-request connection ACTION'",
            Expected::Action => {
                "ACTION is accept, reject, 'track-sc0 KEY' to 'track-sc2 KEY', sc-inc-gpc0(n), sc-inc-gpc1(n), 'sc-set-gpt0(n) V', sc-inc-gpc(i,n) or 'sc-set-gpt(i,n) V'"
            }
            Expected::Slot => "(n) is (0), (1) or (2)",
            Expected::Element => "(i,n) is an element of 0 to 99 and a slot of 0 to 2, as (1,0)",
            Expected::Value => "V is 0 to 4294967295",
            Expected::Key => "KEY is src, src_port, dst_port, int(N) or str(TEXT)",
            Expected::BehindKey =>
                "behind KEY stand 'table NAME', 'if CONDITION', 'unless CONDITION' or nothing",
            Expected::BehindAction =>
                "behind the action stand 'if CONDITION', 'unless CONDITION' or nothing",
            other => other.condition_text(),
        }
    }

    /// The same of what stands in conditions, or names what other lines declare.
    fn condition_text(self) -> &'static str {
        match self {
            Expected::Table => "TABLE is the name of a section with a stick-table",
            Expected::OwnTable =>
                "it means the section's own table, and there is none: name another section's",
            Expected::Backend => "NAME is that of a backend or listen section",
            Expected::Acl => "NAME is that of an acl above in this section, TRUE or FALSE",
            Expected::Brace => "a brace is a word of its own, with blanks round it",
            Expected::Term =>
                "a term is '{ CRITERION VALUE.. }' or the NAME of an acl, perhaps with '!' in front",
            Expected::ClosingBrace => "'}' closes the brace",
            Expected::Criterion => {
                "CRITERION is src, src_port, dst_port, always_true, always_false, src_X or src_X(TABLE), or of a slot sc0_X to sc2_X or sc_X(n)"
            }
            Expected::Pattern => {
                "VALUE is a number or a range as 1:10, perhaps behind eq; or a number behind ge, gt, le or lt"
            }
            Expected::Number => "behind ge, gt, le or lt VALUE is a number",
            Expected::Network =>
                "VALUE is an IP address, perhaps with '/' and a length, as 10.0.0.0/8",
            _ => "the criterion has no values",
        }
    }
}

impl Display for Expected {
    fn fmt<W: Write>(&self, f: &mut Formatter<W>) -> fmt::Result {
        f.write_str(self.text())
    }
}

/// The words with which a line may begin.
const KEYWORDS: [&str; 17] = [
    "frontend",
    "backend",
    "listen",
    "bind",
    "mode",
    "server",
    "default_backend",
    "stick-table",
    "acl",
    "tcp-request",
    "global",
    "defaults",
    "option",
    "timeout",
    "balance",
    "maxconn",
    "log",
];

const DATA: [&str; 16] = [
    "gpt0",
    "gpc0",
    "gpc0_rate",
    "conn_cnt",
    "conn_rate",
    "conn_cur",
    "sess_cnt",
    "sess_rate",
    "bytes_in_cnt",
    "bytes_in_rate",
    "bytes_out_cnt",
    "bytes_out_rate",
    "gpc1",
    "gpc1_rate",
    "gpt",
    "gpc",
];

const ACTIONS: [&str; 10] = [
    "accept",
    "reject",
    "track-sc0",
    "track-sc1",
    "track-sc2",
    "sc-inc-gpc0",
    "sc-inc-gpc1",
    "sc-set-gpt0",
    "sc-inc-gpc",
    "sc-set-gpt",
];

/// What `src_` may stand before.
pub(crate) const SOURCE_FETCHES: [&str; 14] = [
    "conn_cnt",
    "conn_cur",
    "conn_rate",
    "sess_cnt",
    "sess_rate",
    "bytes_in_rate",
    "bytes_out_rate",
    "gpc0_rate",
    "gpc1_rate",
    "get_gpc0",
    "get_gpc1",
    "get_gpt0",
    "kbytes_in",
    "kbytes_out",
];

/// What `sc0_` and its kin may stand before, and `sc_` with the slot behind it.
pub(crate) const SLOT_FETCHES: [&str; 20] = [
    "conn_cnt",
    "conn_cur",
    "conn_rate",
    "sess_cnt",
    "sess_rate",
    "bytes_in_rate",
    "bytes_out_rate",
    "gpc0_rate",
    "gpc1_rate",
    "get_gpc0",
    "get_gpc1",
    "get_gpt0",
    "kbytes_in",
    "kbytes_out",
    "tracked",
    "trackers",
    "inc_gpc0",
    "inc_gpc1",
    "clr_gpc0",
    "clr_gpc1",
];

/// What `sc_` may stand before with an element and the slot behind it.
pub(crate) const ELEMENT_FETCHES: [&str; 3] = ["get_gpc", "get_gpt", "inc_gpc"];

/// Criteria whose names have no parts, and those of slots and sources that are used most.
const CRITERIA: [&str; 16] = [
    "src",
    "src_port",
    "dst_port",
    "always_true",
    "always_false",
    "sc0_conn_cur",
    "sc0_conn_rate",
    "sc0_conn_cnt",
    "sc0_get_gpc0",
    "sc0_gpc0_rate",
    "sc0_sess_rate",
    "sc0_inc_gpc0",
    "sc0_tracked",
    "src_conn_cur",
    "src_conn_rate",
    "src_get_gpc0",
];
