//! What is warned of as the proxy starts, to the byte, where `stickd check` isn't told what that rests on: how many connections
//! and shards there are, descriptors, and times. What it is told of, rows of `tests/rows` have.

use crate::setups::setup_of;
use rule_warnings::{StartPlan, Warning, descriptors_wanted, table_warnings, warnings_of};
use std::alloc::Global;
use std::fmt::Write;

/// Two connections at most want two places each of the only shard.
const TWO_SLOTS: &str = "listen t\nstick-table type ip size 3 store conn_cur\n\
    tcp-request connection track-sc0 src\ntcp-request connection track-sc1 src\n\
    tcp-request connection reject if { sc0_conn_cur gt 3 }\n";

const SEVEN: &str =
    "listen t\nstick-table type ip size 7 store conn_cur\ntcp-request connection track-sc0 src\n\
    tcp-request connection reject if { sc0_conn_cur gt 3 }\n";

const MANY: &str =
    "listen t\nstick-table type ip size 100k store conn_cur\ntcp-request connection track-sc0 src\n\
    tcp-request connection reject if { sc0_conn_cur gt 3 }\n";

const PLACES: &str =
    "In table t, sc0 may want 4 places of one shard, which has 3. Where that is full, a connection passes the limits by sc0 uncounted. Add 'tcp-request connection reject unless { sc0_tracked }'.\n";

const REFERENCES: &str =
    "In table t, sc0 may want 65537 references of one shard, which has 65536. Where that is full, a connection passes the limits by sc0 uncounted. Add 'tcp-request connection reject unless { sc0_tracked }'.\n";

const LARGE: &str =
    "A shard of table t has 102401 places, and may be locked for long by a listing. Give --shards 64, and a size of 6400k or less: then none has more than 102400.\n";

/// A configuration, how many connections there are at most, in how many shards each table is kept, and what is warned of.
type Row = (&'static str, u32, u32, &'static str);

const ROWS: &[Row] = &[
    (TWO_SLOTS, 2, 1, PLACES),
    (SEVEN, 4, 2, PLACES),
    (MANY, 65_536, 1, ""),
    (MANY, 65_537, 1, REFERENCES),
    ("listen t\nstick-table type ip size 200k\n", 4, 2, ""),
    ("listen t\nstick-table type ip size 6553601\n", 4, 64, LARGE),
];

/// Warnings, a line each.
fn lines_of(alloc: Global, warnings: &[Warning]) -> Option<String> {
    let mut lines = String::new(alloc);
    for warning in warnings {
        writeln!(lines, "{warning}").ok()?;
    }
    Some(lines)
}

/// Whether warnings are printed so.
fn are_said(alloc: Global, warnings: &[Warning], said: &str) -> bool {
    match lines_of(alloc, warnings) {
        Some(lines) => lines.as_bytes() == said.as_bytes(),
        None => false,
    }
}

/// Whether a row's configuration gets the warnings of the row.
fn is_right(alloc: Global, row: &Row) -> bool {
    let Some(setup) = setup_of(alloc, row.0.as_bytes(), row.2) else {
        return false;
    };
    if setup.shards == 0 {
        return false;
    }
    match table_warnings(alloc, &setup, row.1) {
        Ok(warnings) => are_said(alloc, warnings.as_slice(), row.3),
        Err(_) => false,
    }
}

#[test]
fn tables_get_their_warnings(rt: HostRuntime) {
    for row in ROWS {
        assert!(rt; is_right(rt.alloc(), row), "{} {}", row.1, row.2);
    }
}

/// A run with four connections on two threads, which wants 33 descriptors.
const PLAN: StartPlan = StartPlan {
    connections: 4,
    threads: 2,
    socket_clients: 4,
    descriptors: Some(33),
    has_client_timeout: true,
    has_server_timeout: true,
    metrics: None,
    takes_ipv6: false,
};

const FEW: &str =
    "For 4 connections on 2 threads 33 descriptors are wanted, and 32 are allowed. Set 'ulimit -n 33' or 'LimitNOFILE=33', or give a smaller --connections.\nWithout --timeout-client, a client that says nothing holds its connection, and its count, for ever. Give --timeout-client; against peers that vanish there is --keepalive too.\n";

const SILENT: &str =
    "Without --timeout-client and --timeout-server, a peer that says nothing holds its connection, and its count, for ever. Give --timeout-client and --timeout-server; against peers that vanish there is --keepalive too.\n";

/// Whether a run without tables gets these warnings.
fn is_said(alloc: Global, plan: StartPlan, said: &str) -> bool {
    let Some(setup) = setup_of(alloc, b"listen t\n", 1) else {
        return false;
    };
    if setup.shards == 0 {
        return false;
    }
    match warnings_of(alloc, &setup, plan) {
        Ok(warnings) => are_said(alloc, warnings.as_slice(), said),
        Err(_) => false,
    }
}

#[test]
fn starts_get_their_warnings(rt: HostRuntime) {
    let alloc = rt.alloc();
    let untold = StartPlan {
        descriptors: None,
        ..PLAN
    };
    let few = StartPlan {
        descriptors: Some(32),
        has_client_timeout: false,
        ..PLAN
    };
    let silent = StartPlan {
        has_client_timeout: false,
        has_server_timeout: false,
        ..PLAN
    };
    assert_eq!(rt; descriptors_wanted(&PLAN), 33);
    assert!(rt; is_said(alloc, PLAN, "") && is_said(alloc, untold, ""));
    assert!(rt; is_said(alloc, few, FEW));
    assert!(rt; is_said(alloc, silent, SILENT));
}
