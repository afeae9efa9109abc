//! The connections that a script has open, by their IDs; `server` looks them up.

ghost use Rattle.std.specs.Prelude.{◌≡◌, is_some, true, OnOk, OnErr};
ghost use Rattle.std.specs.BTreeMap.{insert_entry};
ghost use Rattle.std.specs.Ordering.{nat_cmp};
ghost use Rattle.stickd_script.specs.Guests.{guest_of, without};

use admit_core::Conn;
use admit_drive::Reference;
use base_sequence::NoMemory;
use std::collections::BTreeMap;

/// The open connections by their IDs.
pub type Guests<'a> = BTreeMap<u32, Conn<'a, Reference>>;

/// Whether a connection of this ID is open.
pub fn is_open(guests: &Guests<'_>, id: u32) -> bool
    ensures { result ≡ is_some (guest_of id guests.now.entries) }
{
    guests.contains_key(&id)
}

/// Holds the place of an ID by a connection. Where a growth is refused, nothing changes.
pub fn hold_place<'a>(
    guests: &mut Guests<'a>,
    id: u32,
    conn: Conn<'a, Reference>,
) -> Result<(), NoMemory>
    ensures ok { OnOk result (guests.new.entries ≡ insert_entry nat_cmp guests.old.entries id conn.entry) }
    ensures err { OnErr result (guests.new.entries ≡ guests.old.entries) }
{
    match guests.insert(id, conn) {
        Ok(_) => Ok(()),
        Err(_) => Err(NoMemory),
    }
}

/// Puts a connection at the place of its ID, which is held.
pub fn keep_guest<'a>(guests: &mut Guests<'a>, id: u32, conn: Conn<'a, Reference>)
    requires { is_some (guest_of id guests.old.entries) ≡ true }
    ensures { guests.new.entries ≡ insert_entry nat_cmp guests.old.entries id conn.entry }
{
    match guests.insert(id, conn) {
        Ok(_) => {}
        Err(_) => unreachable!(),
    }
}

/// Takes the connection of an ID out, if it is open.
pub fn take_guest<'a>(guests: &mut Guests<'a>, id: u32) -> Option<Conn<'a, Reference>>
    ensures taken { result ≡ guest_of id guests.old.entries }
    ensures others { guests.new.entries ≡ without id guests.old.entries }
{
    guests.remove(&id)
}
