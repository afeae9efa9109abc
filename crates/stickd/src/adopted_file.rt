//! A file of HAProxy that is run, or checked, as it is: `adopt` makes a configuration and options of it, and `main` goes on as if it had
//! been given these.

use adopt::{Adoption, Wishes, WordsFault, take_file, text_of, with_options};
use base_sequence::NoMemory;
use clap::ArgMatches;
use std::alloc::Global;
use std::io;
use std::process::ExitCode;
use std::rt::{Env, Files};
use stickd_input::{ANYWAY, FIRST_SERVER, FRONTEND};

/// What is run of a file of HAProxy.
#[derive(Drop)]
pub(crate) struct Start {
    /// The configuration.
    pub text: Vec<u8>,
    /// The command line, with the options that stand for lines of the file.
    pub words: Vec<String>,
}

/// What is wished of the file.
pub(crate) fn read_wishes(alloc: Global, arguments: &ArgMatches<'_>) -> Result<Wishes, NoMemory> {
    let frontend = match arguments.get_str(FRONTEND) {
        Some(name) => Some(text_of(alloc, name)?),
        None => None,
    };
    Ok(Wishes {
        frontend,
        first_server: arguments.get_flag(FIRST_SERVER),
    })
}

/// What becomes of the file that a command line names, which is then said. Where it isn't taken the status is answered.
pub(crate) fn take_named<R: Files + Env + Eprint + AllocGlobal>(
    rt: &R,
    arguments: &ArgMatches<'_>,
    anyway: bool,
) -> io::Result<Result<Adoption, ExitCode>> {
    let Ok(wishes) = read_wishes(rt.alloc(), arguments) else {
        eprintln!(rt; "stickd: out of memory")?;
        return Ok(Err(ExitCode::FAILURE));
    };
    let path = arguments.get_str("FILE").unwrap_or("");
    match take_file(rt, path, &wishes, anyway)? {
        Ok(adoption) => Ok(Ok(adoption)),
        Err(status) => Ok(Err(ExitCode::from(status))),
    }
}

/// What is run of the file that a command line names, where these are all its words. Where it isn't run the reason is said, and the
/// status answered.
pub(crate) fn take_start<R: Files + Env + Eprint + AllocGlobal>(
    rt: &R,
    arguments: &ArgMatches<'_>,
    words: &[String],
) -> io::Result<Result<Start, ExitCode>> {
    let adoption = match take_named(rt, arguments, arguments.get_flag(ANYWAY))? {
        Ok(adoption) => adoption,
        Err(status) => return Ok(Err(status)),
    };
    let fault = match with_options(rt.alloc(), words, adoption.options.as_slice()) {
        Ok(words) => {
            let text = adoption.text;
            return Ok(Ok(Start { text, words }));
        }
        Err(fault) => fault,
    };
    match fault {
        WordsFault::NotUtf8 => eprintln!(rt; "stickd: a value of the file isn't UTF-8")?,
        WordsFault::NoMemory => eprintln!(rt; "stickd: out of memory")?,
    }
    Ok(Err(ExitCode::FAILURE))
}
