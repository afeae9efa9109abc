//! What the program can be asked; `stickd` calls `read_command_line`.

use crate::arguments::{
    add_argument, count_option, file_argument, file_command, flag_option, value_option,
};
use crate::haproxy_options::{
    anyway_option, first_server_option, frontend_option, haproxy_option, names_haproxy, of_haproxy,
};
use crate::header_options::{
    accept_proxy_option, header_option, proxies_only_option, send_proxy_option,
    send_proxy_v2_option,
};
use crate::help::{
    ADOPT_HELP, CHECK_HELP, CTL_HELP, RELOAD_HELP, REPLAY_HELP, RUN_HELP, STOP_HELP, TOP_HELP,
};
use crate::options::{
    backlog_option, bind_option, check_option, client_option, clients_option, connect_option,
    connections_option, drain_option, fin_option, group_option, ipv4_prefix_option,
    ipv6_prefix_option, keepalive_option, level_option, metrics_option, mode_option, purge_option,
    rejected_option, report_option, retries_option, roll_option, server_option, shards_option,
    socket_option, socket_time_option, stats_clients_option, stats_option, stop_drain_option,
    stop_option, threads_option, user_timeout_option,
};
use crate::saved_options::{
    fitting_option, form_option, lenient_option, load_option, patience_option, reloaded_option,
    save_every_option, save_option, stopped_option, to_option,
};
use clap::{Arg, ArgMatches, Command, Error};
use std::alloc::{AllocError, Global};

/// The program's version.
pub const VERSION: &str = "0.2.0";

/// The option that asks for an explanation of each fault.
fn explain_option<'a>(alloc: Global) -> Arg<'a> {
    flag_option(
        alloc,
        "explain",
        "Show the line below a fault or a warning, and say what commonly causes it, or what is lost",
    )
}

/// The option that asks for all faults.
fn all_option<'a>(alloc: Global) -> Arg<'a> {
    flag_option(
        alloc,
        "all",
        "Say every fault of the file, and not the first alone",
    )
}

/// `stickd check`.
fn check_command<'a>(alloc: Global) -> Result<Command<'a>, AllocError> {
    let command = file_command(
        alloc,
        "check",
        "Read a configuration, and say what is wrong with it",
        CHECK_HELP,
        file_argument(alloc, true, "The configuration"),
    );
    let command = add_argument(command, all_option(alloc));
    let command = add_argument(command, explain_option(alloc));
    let command = add_argument(command, fitting_option(alloc));
    let command = add_argument(command, shards_option(alloc));
    let command = add_argument(
        command,
        haproxy_option(
            alloc,
            "FILE is one of HAProxy: check what 'stickd adopt' makes of it",
        ),
    );
    let command = add_made(command, of_haproxy(first_server_option(alloc)));
    add_made(command, of_haproxy(frontend_option(alloc)))
}

/// `stickd adopt`.
fn adopt_command<'a>(alloc: Global) -> Result<Command<'a>, AllocError> {
    let command = file_command(
        alloc,
        "adopt",
        "Write the configuration that stickd runs in place of HAProxy's",
        ADOPT_HELP,
        file_argument(alloc, true, "The configuration of HAProxy"),
    );
    let command = add_argument(
        command,
        anyway_option(alloc, "Write it also where what is served changes"),
    );
    let command = add_argument(
        command,
        flag_option(
            alloc,
            "command",
            "Write the command line that runs it, and nothing else",
        ),
    );
    let command = add_argument(command, first_server_option(alloc));
    let command = add_argument(command, frontend_option(alloc));
    add_argument(
        command,
        flag_option(
            alloc,
            "verbose",
            "Say of each line that is lost without harm why",
        ),
    )
}

/// `stickd ctl`.
fn ctl_command<'a>(alloc: Global) -> Result<Command<'a>, AllocError> {
    let command = file_command(
        alloc,
        "ctl",
        "Send commands to a running stickd, and show what it answers",
        CTL_HELP,
        commands_argument(alloc),
    );
    let command = add_argument(command, socket_option(alloc));
    let command = add_argument(command, flag_option(alloc, "json", "Show answers as JSON"));
    let command = add_argument(
        command,
        count_option(
            alloc,
            "watch",
            "SECONDS",
            3600,
            "Ask again after so many seconds, 1 to 3600, until nobody answers",
        ),
    );
    let command = add_argument(command, to_option(alloc));
    let command = add_argument(command, form_option(alloc));
    add_argument(command, patience_option(alloc))
}

/// The words of commands.
fn commands_argument<'a>(alloc: Global) -> Arg<'a> {
    Arg::new(alloc, "COMMAND")
        .required(true)
        .num_args(1..)
        .help("The words of the commands, as show table")
}

/// `stickd top`.
fn top_command<'a>(alloc: Global) -> Result<Command<'a>, AllocError> {
    let command = Command::new(alloc, "top")
        .about("Show the entries of a running stickd's table with the greatest numbers")
        .after_help(TOP_HELP)
        .arg(socket_option(alloc));
    let command = add_argument(
        command,
        value_option(alloc, "table", "T", "The table [default: the only one]"),
    );
    let command = add_argument(
        command,
        value_option(
            alloc,
            "by",
            "DATUM",
            "The number, as conn_rate [default: conn_cur, or else the first that is stored]",
        ),
    );
    add_argument(
        command,
        count_option(
            alloc,
            "rows",
            "N",
            1000,
            "How many entries are shown at most, 1 to 1000",
        )
        .default_value("20"),
    )
}

/// `stickd reload`.
fn reload_command<'a>(alloc: Global) -> Result<Command<'a>, AllocError> {
    let command = Command::new(alloc, "reload")
        .about("Have a running stickd read its rules again")
        .after_help(RELOAD_HELP)
        .arg(reloaded_option(alloc));
    add_argument(command, patience_option(alloc))
}

/// `stickd replay`.
fn replay_command<'a>(alloc: Global) -> Result<Command<'a>, AllocError> {
    let file = file_argument(
        alloc,
        false,
        "The configuration whose tables and rules are used [default: one table, t]",
    );
    let command = file_command(
        alloc,
        "replay",
        "Replay a timed script of connections and commands on standard input",
        REPLAY_HELP,
        file,
    );
    let command = add_argument(command, shards_option(alloc));
    let command = add_argument(command, purge_option(alloc));
    let command = add_argument(command, ipv4_prefix_option(alloc));
    let command = add_argument(command, ipv6_prefix_option(alloc));
    add_argument(command, load_option(alloc))
}

/// Adds an argument to a command, if there was memory to make both.
fn add_made<'a>(
    command: Result<Command<'a>, AllocError>,
    argument: Result<Arg<'a>, AllocError>,
) -> Result<Command<'a>, AllocError> {
    add_argument(command, argument?)
}

/// `stickd run`, of which a file of HAProxy says the socket and the threads too.
fn run_command<'a>(alloc: Global, has_haproxy: bool) -> Result<Command<'a>, AllocError> {
    let command = file_command(
        alloc,
        "run",
        "Run the proxy, and answer commands on a socket",
        RUN_HELP,
        file_argument(alloc, true, "The configuration"),
    );
    let command = add_argument(command, socket_option(alloc).required(!has_haproxy));
    let command = add_argument(command, threads_option(alloc).required(!has_haproxy));
    let command = add_argument(command, check_option(alloc));
    let command = add_argument(
        command,
        haproxy_option(
            alloc,
            "FILE is one of HAProxy: run what 'stickd adopt' makes of it, by the options that it says",
        ),
    );
    let command = add_made(
        command,
        of_haproxy(anyway_option(alloc, "Run it also where what is served changes")),
    );
    let command = add_made(command, of_haproxy(first_server_option(alloc)));
    let command = add_made(command, of_haproxy(frontend_option(alloc)));
    let command = add_argument(command, bind_option(alloc));
    let command = add_argument(command, shards_option(alloc));
    let command = add_argument(command, purge_option(alloc));
    let command = add_argument(command, ipv4_prefix_option(alloc));
    let command = add_argument(command, ipv6_prefix_option(alloc));
    let command = add_argument(command, load_option(alloc));
    let command = add_argument(command, lenient_option(alloc));
    let command = add_argument(command, save_option(alloc));
    let command = add_argument(command, save_every_option(alloc));
    let command = add_argument(command, connections_option(alloc));
    let command = add_argument(command, backlog_option(alloc));
    let command = add_argument(command, connect_option(alloc));
    let command = add_argument(command, retries_option(alloc));
    let command = add_argument(command, client_option(alloc));
    let command = add_argument(command, server_option(alloc));
    let command = add_argument(command, fin_option(alloc));
    let command = add_argument(command, keepalive_option(alloc));
    let command = add_argument(command, user_timeout_option(alloc));
    let command = add_argument(command, accept_proxy_option(alloc));
    let command = add_argument(command, proxies_only_option(alloc));
    let command = add_argument(command, header_option(alloc));
    let command = add_argument(command, send_proxy_option(alloc));
    let command = add_made(command, send_proxy_v2_option(alloc));
    let command = add_argument(command, mode_option(alloc));
    let command = add_argument(command, group_option(alloc));
    let command = add_argument(command, level_option(alloc));
    let command = add_argument(command, clients_option(alloc));
    let command = add_argument(command, socket_time_option(alloc));
    let command = add_argument(command, stats_option(alloc));
    let command = add_argument(command, stats_clients_option(alloc));
    let command = add_argument(command, metrics_option(alloc));
    let command = add_argument(command, report_option(alloc));
    let command = add_argument(command, rejected_option(alloc));
    let command = add_argument(command, drain_option(alloc));
    let command = add_argument(command, stop_option(alloc));
    add_argument(command, roll_option(alloc))
}

/// `stickd stop`.
fn stop_command<'a>(alloc: Global) -> Result<Command<'a>, AllocError> {
    let command = Command::new(alloc, "stop")
        .about("Stop a running stickd, and wait until it has ended")
        .after_help(STOP_HELP)
        .arg(stopped_option(alloc));
    let command = add_argument(command, stop_drain_option(alloc));
    add_argument(command, patience_option(alloc))
}

/// Adds a subcommand to a command, if there was memory to make it.
fn add_subcommand<'a>(
    command: Command<'a>,
    subcommand: Result<Command<'a>, AllocError>,
) -> Result<Command<'a>, AllocError> {
    command.subcommand(subcommand?)
}

/// `stickd` with no subcommands yet.
fn bare_program<'a>(alloc: Global) -> Command<'a> {
    Command::new(alloc, "stickd")
        .about("Stick tables in HAProxy's language, with answers that are proved")
        .version(VERSION)
        .subcommand_required(true)
        .arg_required_else_help(true)
}

/// `stickd` and its subcommands, of a command line that says that its file is one of HAProxy, or doesn't.
fn program_command<'a>(alloc: Global, has_haproxy: bool) -> Result<Command<'a>, AllocError> {
    let command = add_subcommand(bare_program(alloc), adopt_command(alloc))?;
    let command = add_subcommand(command, check_command(alloc))?;
    let command = add_subcommand(command, ctl_command(alloc))?;
    let command = add_subcommand(command, reload_command(alloc))?;
    let command = add_subcommand(command, replay_command(alloc))?;
    let command = add_subcommand(command, run_command(alloc, has_haproxy))?;
    let command = add_subcommand(command, stop_command(alloc))?;
    add_subcommand(command, top_command(alloc))
}

/// Reads the words of a command line, the program's name first.
pub fn read_command_line<'a>(alloc: Global, words: &'a [String]) -> Result<ArgMatches<'a>, Error> {
    program_command(alloc, names_haproxy(words))?.try_get_matches_from(words)
}
