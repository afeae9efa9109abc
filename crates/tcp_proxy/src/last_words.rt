//! The last word of a run that somebody asked to stop, on its stats sockets: `stickd stop` waits there for its end, and learns whether the
//! tables were saved; `running` says it.

use crate::sockets::{Socket, Sockets};
use std::io::Write;
use std::mem;
use std::os::unix::net::UnixStream;
use stickd_ctl::LastWord;

/// How often it is looked for who waits. Each look takes a tenth of a second, where none comes.
const LOOKS: u32 = 10;

/// Says the last word to a client. The connection is never closed here, so that it ends with the program.
fn tell(mut stream: UnixStream, word: LastWord) {
    // Who doesn't wait any more needn't hear it.
    let _ = stream.write_all(word.bytes());
    mem::forget(stream);
}

/// Says it to those that wait at the sockets, which nobody else answers any more, and waits for one of them to come.
fn tell_waiting(sockets: &[Socket], word: LastWord) {
    let mut is_told = false;
    for _look in 0..LOOKS {
        let before = is_told;
        let mut is_new = false;
        for socket in sockets {
            if let Ok((stream, _address)) = socket.listener.accept() {
                tell(stream, word);
                is_told = true;
                is_new = true;
            }
        }
        if before && !is_new {
            return;
        }
    }
}

/// Says the last word of a run on its stats sockets, where somebody asked it to stop.
pub(crate) fn say_last_word(sockets: &Sockets, is_asked: bool, is_saved: bool) {
    if is_asked {
        tell_waiting(sockets.stats.as_slice(), LastWord::of(is_saved));
    }
}
