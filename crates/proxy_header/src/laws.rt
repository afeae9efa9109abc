//! Laws of headers; each is the contract of a function that no code calls.
//!
//! Its body is empty, but for the calls of laws on which it rests.
ghost use Rattle.proxy_header.specs.Laws.{CutLaw, HeardStaysLaw, RoomLaw, WrittenLaw, WrittenRoomLaw};

use stick_key::laws::{gives_what_is_spelled, printed_reads_back};

/// What was said of the first bytes is said whatever follows, unless more was to be waited for.
pub fn heard_stays()
    ensures { HeardStaysLaw }
{}

/// Where more is to be waited for, fewer than 4,096 bytes are there. A header that is told is there whole, has at most 4,096
/// bytes, and is unfinished before its last one.
pub fn room()
    ensures room { RoomLaw }
    ensures cut { CutLaw }
{}

/// What is written of ends is read as those ends, whatever follows; where their addresses are of two families, as none. It has at
/// most 107 bytes.
pub fn written_is_read()
    ensures read { WrittenLaw }
    ensures room { WrittenRoomLaw }
{
    gives_what_is_spelled();
    printed_reads_back();
}
