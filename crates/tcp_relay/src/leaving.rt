//! What a connection still holds when it leaves; `visiting` lets it go, and `worker` takes what is left.

ghost use Rattle.std.specs.Prelude.{◌≡◌, ◌≤◌, ◌<◌, ◌+◌, ◌*◌, ℕ, false, IfSome, None, length, map, option_map, vec_len};
ghost use Rattle.rule_model.specs.declared.actions.Slot.TheVariants.{Sc0, Sc1, Sc2};
ghost use Rattle.admit_core.specs.Conn.{progress_of};
ghost use Rattle.admit_core.specs.Held.{held_at, nothing_held};
ghost use Rattle.tcp_relay.specs.Seating.{HaveFew, HaveRoom, held_in, put_in_if};
ghost use Rattle.tcp_relay.specs.Connections.{left_by, left_by_all, left_if};

use crate::connection::Connection;
use crate::seating::put_aside;
use crate::width::Width;
use admit_core::Conn;
use rule_model::Slot;
use shard_locks::SharedRef;
use shard_record::Naming;

/// How many references a connection holds at most.
pub(crate) const MOST_HELD: usize = 3;

/// Whether a connection holds a reference.
pub(crate) fn holds<J: Naming>(conn: &Conn<'_, SharedRef<J>>) -> bool
    ensures sc0 { result ≡ false → held_at (progress_of conn.now).held Sc0 ≡ None }
    ensures sc1 { result ≡ false → held_at (progress_of conn.now).held Sc1 ≡ None }
    ensures sc2 { result ≡ false → held_at (progress_of conn.now).held Sc2 ≡ None }
    ensures held { result ≡ false → (progress_of conn.now).held ≡ nothing_held }
{
    conn.held(Slot::Sc0).is_some()
        || conn.held(Slot::Sc1).is_some()
        || conn.held(Slot::Sc2).is_some()
}

/// Lets a connection go that holds nothing.
#[inline(always)]
pub(crate) fn let_go<J: Naming>(conn: Conn<'_, SharedRef<J>>)
    requires sc0 { held_at (progress_of conn).held Sc0 ≡ None }
    requires sc1 { held_at (progress_of conn).held Sc1 ≡ None }
    requires sc2 { held_at (progress_of conn).held Sc2 ≡ None }
{
    match conn.end() {
        (None, None, None) => {}
        (_first, _second, _third) => unreachable!(),
    }
}

/// Puts a reference, if there is one, to the others of its table.
fn put_held<J: Naming>(refs: &mut Vec<Vec<SharedRef<J>>>, held: Option<(u32, SharedRef<J>)>)
    requires table { IfSome held (λ entry. entry.0 < length refs.old.items) }
    requires room { HaveRoom 1 refs.old.items }
    ensures kept { held_in refs.new.items ≡ put_in_if held (held_in refs.old.items) }
    ensures tables { length refs.new.items ≡ length refs.old.items }
    ensures more { (most places : ℕ) → HaveFew most places refs.old.items → HaveFew (most + 1) places refs.new.items }
    ensures room { (spare : ℕ) → HaveRoom (spare + 1) refs.old.items → HaveRoom spare refs.new.items }
{
    match held {
        Some((table, reference)) => put_aside(refs, table, reference),
        None => {}
    }
}

/// Puts the references that a connection still holds to the others of their tables, and closes its sockets.
fn put_connection<J: Naming, W: Width>(
    refs: &mut Vec<Vec<SharedRef<J>>>,
    connection: Connection<'_, J, W>,
)
    requires tables { length refs.old.items ≡ W.tables }
    requires room { HaveRoom 3 refs.old.items }
    ensures kept { held_in refs.new.items ≡ left_by connection.entry.conn (held_in refs.old.items) }
    ensures tables { length refs.new.items ≡ length refs.old.items }
    ensures more { (most places : ℕ) → HaveFew most places refs.old.items → HaveFew (most + 3) places refs.new.items }
    ensures room { (spare : ℕ) → HaveRoom (spare + 3) refs.old.items → HaveRoom spare refs.new.items }
{
    let Connection {
        conn,
        link: _link,
        counted: _,
        of: _,
    } = connection;
    let (first, second, third) = conn.end();
    put_held(refs, first);
    put_held(refs, second);
    put_held(refs, third);
}

/// The same of a place, in which there may be none.
fn put_place<J: Naming, W: Width>(
    refs: &mut Vec<Vec<SharedRef<J>>>,
    place: Option<Connection<'_, J, W>>,
)
    requires tables { length refs.old.items ≡ W.tables }
    requires room { HaveRoom 3 refs.old.items }
    ensures kept { held_in refs.new.items ≡ left_if (option_map (λ connection. connection.conn) place.entry) (held_in refs.old.items) }
    ensures tables { length refs.new.items ≡ length refs.old.items }
    ensures more { (most places : ℕ) → HaveFew most places refs.old.items → HaveFew (most + 3) places refs.new.items }
    ensures room { (spare : ℕ) → HaveRoom (spare + 3) refs.old.items → HaveRoom spare refs.new.items }
{
    match place {
        Some(connection) => put_connection(refs, connection),
        None => {}
    }
}

/// Puts the references that connections still hold to the others of their tables.
pub(crate) fn put_connections<J: Naming, W: Width>(
    refs: &mut Vec<Vec<SharedRef<J>>>,
    mut held: Vec<Option<Connection<'_, J, W>>>,
)
    requires few { vec_len held ≤ W.most }
    requires tables { length refs.old.items ≡ W.tables }
    requires room { HaveRoom (W.most * 3) refs.old.items }
    ensures kept { held_in refs.new.items ≡ left_by_all (map (option_map (λ connection. connection.conn)) held.entry.items) (held_in refs.old.items) }
    ensures tables { length refs.new.items ≡ length refs.old.items }
    ensures more { (most places : ℕ) → HaveFew most places refs.old.items → HaveFew (most + W.most * 3) places refs.new.items }
{
    while let Some(place) = held.pop() {
        put_place(refs, place);
    }
    held.destroy_empty();
}
