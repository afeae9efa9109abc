//! What is said of a word of the command line that can't be read, and the times that options name; what reads `stickd run`'s words calls it.

use clap::ArgMatches;
use rule_words::read_time;

/// A word after an option that wants another.
#[derive(Clone, Copy, Debug, thiserror::Error)]
pub enum BadWord<'a> {
    #[error("'{word}' is no time for --{option}: it is 1 ms to 2147483647 ms, as 1500ms, 5s or 10m")]
    Time { option: &'static str, word: &'a str },
    #[error("'{0}' is no mode for --socket-mode: it is one to four octal digits up to 0777, as 600 or 0660")]
    Mode(&'a str),
    #[error("'{word}' is no place to listen for --{option}: it is ADDRESS:PORT, as 127.0.0.1:8080, [::1]:8080 or *:8080")]
    Bind { option: &'static str, word: &'a str },
    #[error("'{0}' is no address or network for --accept-proxy: it is one as 10.0.0.1, 10.0.0.0/8 or 2001:db8::/32, or up to 64 with a comma between any two")]
    Network(&'a str),
    #[error("'{0}' is no socket for --stats-socket: it is PATH, followed by any of ,mode=M ,group=G and ,level=L once: M one to four octal digits up to 0777, L user, operator or admin")]
    Stats(&'a str),
    #[error("'{0}' is no level for --socket-level: it is user, operator or admin")]
    Level(&'a str),
    #[error("--bind can be given 16 times, and no more")]
    ManyBinds,
    #[error("--stats-socket can be given 4 times, and no more")]
    ManyStats,
    #[error("--accept-proxy takes 64 addresses or networks, and no more")]
    ManyNetworks,
    #[error("--{0} wants --accept-proxy, which names the proxies")]
    NoProxies(&'static str),
    #[error("--save-every wants --save, which names the file")]
    NothingToSave,
    #[error("out of memory")]
    Memory,
}

/// The time that an option names, in ms. None where it isn't given.
pub(crate) fn read_timeout<'a>(
    arguments: &ArgMatches<'a>,
    option: &'static str,
) -> Result<Option<u64>, BadWord<'a>> {
    let Some(word) = arguments.get_str(option) else {
        return Ok(None);
    };
    match read_time(word.as_bytes()) {
        Ok(time) => Ok(Some(u64::from(time))),
        Err(_) => Err(BadWord::Time { option, word }),
    }
}
