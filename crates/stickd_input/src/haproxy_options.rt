//! The options that have to do with a file of HAProxy; `command_line` gives them to its commands.

ghost use Rattle.std.specs.Prelude.{◌≡◌};
ghost use Rattle.stickd_input.specs.Haproxy as spec;

use crate::arguments::{flag_option, value_option};
use clap::Arg;
use std::alloc::{AllocError, Global};

/// The option that says that a command's file is one of HAProxy.
pub const HAPROXY: &str = "haproxy";

/// The option by which a file is taken also where what is served changes.
pub const ANYWAY: &str = "anyway";

/// The option that says which section of a file of HAProxy is served.
pub const FRONTEND: &str = "frontend";

/// The option by which the first of several servers is taken.
pub const FIRST_SERVER: &str = "first-server";

/// How the option is written that says that a file is one of HAProxy.
const FLAG: &str = "--haproxy";

/// What stands before words of which none is an option.
const NO_OPTIONS: &str = "--";

/// Whether a command line says that its file is one of HAProxy.
pub fn names_haproxy(words: &[String]) -> bool
    ensures { result ≡ spec.names_haproxy words.now }
{
    for word in words {
        if word.as_str() == NO_OPTIONS {
            return false;
        }
        if word.as_str() == FLAG {
            return true;
        }
    }
    false
}

/// That a command's file is one of HAProxy.
pub(crate) fn haproxy_option<'a>(alloc: Global, help: &'a str) -> Arg<'a> {
    flag_option(alloc, HAPROXY, help)
}

/// That a file is taken also where what is served changes.
pub(crate) fn anyway_option<'a>(alloc: Global, help: &'a str) -> Arg<'a> {
    flag_option(alloc, ANYWAY, help)
}

/// That the first of several servers is taken.
pub(crate) fn first_server_option<'a>(alloc: Global) -> Arg<'a> {
    flag_option(alloc, FIRST_SERVER, "Keep the first of several servers")
}

/// Which section of a file of HAProxy is served.
pub(crate) fn frontend_option<'a>(alloc: Global) -> Arg<'a> {
    value_option(
        alloc,
        FRONTEND,
        "NAME",
        "The frontend or listen section to serve [default: the first that isn't HTTP]",
    )
}

/// An option that means something of a file of HAProxy alone.
pub(crate) fn of_haproxy<'a>(option: Arg<'a>) -> Result<Arg<'a>, AllocError> {
    option.requires_arg(HAPROXY)
}
