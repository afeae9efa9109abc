//! The options of the PROXY protocol: who is believed to say for whom it connects, and how a server is told of its clients;
//! `command_line` gives them to `stickd run`.

use crate::arguments::{flag_option, value_option};
use clap::Arg;
use std::alloc::{AllocError, Global};

/// The option that names the proxies that say for whom they connect.
pub const ACCEPT_PROXY: &str = "accept-proxy";

/// The option by which nobody else may connect.
pub const PROXIES_ONLY: &str = "proxies-only";

/// The option that says how long a proxy's header may take.
pub const HEADER: &str = "timeout-header";

/// The option by which a server is told of its clients by version 1 of the PROXY protocol.
pub const SEND_PROXY: &str = "send-proxy";

/// The option by which it is told by version 2.
pub const SEND_PROXY_V2: &str = "send-proxy-v2";

/// Who begins by a header of the PROXY protocol, which is believed.
pub(crate) fn accept_proxy_option<'a>(alloc: Global) -> Arg<'a> {
    value_option(
        alloc,
        ACCEPT_PROXY,
        "NET[,NET..]",
        "Whoever connects from these 1 to 64 addresses or networks says first for whom, by the PROXY protocol, and is judged by that [default: nobody]",
    )
}

/// Whether nobody else may connect.
pub(crate) fn proxies_only_option<'a>(alloc: Global) -> Arg<'a> {
    flag_option(
        alloc,
        PROXIES_ONLY,
        "Reset whoever connects from elsewhere, unread",
    )
}

/// How long a header may take. It has no default of clap's, so that one is seen that was given for no proxies.
pub(crate) fn header_option<'a>(alloc: Global) -> Arg<'a> {
    value_option(
        alloc,
        HEADER,
        "TIME",
        "How long the header of --accept-proxy may take once its client is accepted [default: 5s]",
    )
}

/// Whether the server is told of each client by version 1.
pub(crate) fn send_proxy_option<'a>(alloc: Global) -> Arg<'a> {
    flag_option(
        alloc,
        SEND_PROXY,
        "Tell the server first who the client is, by version 1 of the PROXY protocol",
    )
}

/// Whether it is told by version 2, in place of version 1.
pub(crate) fn send_proxy_v2_option<'a>(alloc: Global) -> Result<Arg<'a>, AllocError> {
    flag_option(
        alloc,
        SEND_PROXY_V2,
        "The same by version 2, which is binary",
    )
    .conflicts_with(SEND_PROXY)
}
