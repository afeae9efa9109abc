//! Leads four connections that share a table through a schedule, of which one from each address is admitted at most, and
//! says after each element what is out, what is held and who is admitted.

ghost use Rattle.std.specs.Prelude.{◌≡◌, length};

use admit_world::World;
use std::io;
use stick_pooled::StickTable;
use test_calls::{admitted, go_on, held, limiting, open_world, out, visit};

/// The hosts that the connections come from.
const HOSTS: [u8; 4] = [1, 1, 1, 2];

/// An element of the schedule: which connection goes on, how many references are out and held then, and how many
/// connections of each host are admitted.
type Turn = (u32, u32, u32, u32);

/// The schedule, 10 ms apart, and what each element does.
static TURNS: [Turn; 32] = [
    (0, 1, 0, 0), // track
    (3, 2, 0, 0), // track
    (0, 2, 0, 0), // look: it alone is current
    (1, 3, 0, 0), // track
    (0, 3, 0, 0), // session
    (1, 3, 0, 0), // look: two are current, so it is rejected
    (0, 3, 1, 0), // turn
    (3, 3, 1, 0), // look
    (1, 3, 1, 0), // turn
    (3, 3, 1, 0), // session
    (3, 3, 1, 1), // turn
    (1, 2, 1, 1), // release
    (1, 2, 1, 1), // turn
    (1, 2, 1, 1), // nothing
    (0, 2, 1, 1), // bytes in
    (0, 2, 1, 1), // bytes out
    (3, 2, 1, 1), // bytes in
    (0, 1, 0, 1), // release
    (2, 2, 0, 1), // track
    (0, 2, 0, 1), // turn
    (2, 2, 0, 1), // look
    (2, 2, 0, 1), // session
    (3, 2, 0, 1), // bytes out
    (2, 2, 1, 1), // turn
    (3, 1, 1, 0), // release
    (0, 1, 1, 0), // nothing
    (2, 1, 1, 0), // bytes in
    (3, 1, 1, 0), // turn
    (2, 1, 1, 0), // bytes out
    (2, 0, 0, 0), // release
    (2, 0, 0, 0), // turn
    (3, 0, 0, 0), // nothing
];

/// What an element of the schedule left: how many references the table lists, if there was memory for that, how many the
/// connections hold, and how many connections of each host are admitted.
#[derive(Clone, Copy)]
struct Left {
    out: Option<u32>,
    held: u32,
    first: u32,
    second: u32,
}

impl Left {
    fn of(world: &World<'_, StickTable>) -> Left
        requires count { length world.now.visitors ≡ 4 }
        requires tables { length world.now.setup.tables ≡ 1 }
        requires shards { world.now.setup.shards ≡ 1 }
    {
        Left {
            out: out(world, 0),
            held: held(world, 0),
            first: admitted(world, HOSTS, 1),
            second: admitted(world, HOSTS, 2),
        }
    }

    /// Whether what is out is held, and one connection of each host is admitted at most.
    fn is_within(self) -> bool {
        self.out.unwrap_or(self.held) == self.held && self.first <= 1 && self.second <= 1
    }

    /// Whether it is what a turn leaves where nothing was refused.
    fn is_of(self, turn: Turn) -> bool {
        (self.held, self.first, self.second) == (turn.1, turn.2, turn.3)
    }

    fn report<R: Print>(self, rt: &R, number: u32, refused: u64) -> io::Result<()> {
        let Left {
            held,
            first,
            second,
            ..
        } = self;
        match self.out {
            Some(out) => println!(rt;
                "{number}: {refused} refused, {out} out, {held} held, {first} and {second} admitted"
            ),
            None => println!(rt;
                "{number}: {refused} refused, unknown out, {held} held, {first} and {second} admitted"
            ),
        }
    }
}

/// Leads the connections of a world through the schedule. Whether all went as it says, up to the first refusal.
fn lead<R: Print + AllocGlobal>(rt: &R, world: &mut World<'_, StickTable>) -> io::Result<bool>
    requires count { length world.old.visitors ≡ 4 }
    requires tables { length world.old.setup.tables ≡ 1 }
    requires shards { world.old.setup.shards ≡ 1 }
{
    let mut is_right = true;
    let mut refused = 0u64;
    for (place, turn) in TURNS.iter().enumerate() {
        let number = turn.0 % 4;
        let moment = place as u64 % 1_000 * 10;
        let here = go_on(rt.alloc(), world, number, moment);
        refused = refused.saturating_add(here);
        let left = Left::of(world);
        left.report(rt, number, here)?;
        is_right = is_right && left.is_within() && (refused > 0 || left.is_of(*turn));
    }
    Ok(is_right)
}

/// Leads the connections; answers whether that went as the schedule says, or there was no memory to begin.
pub(crate) fn lead_connections<R: Print + AllocGlobal>(rt: &R) -> io::Result<bool> {
    let alloc = rt.alloc();
    let Ok(setup) = limiting(alloc, 1, 1) else {
        println!(rt; "out of memory")?;
        return Ok(true);
    };
    let visits = [
        visit(HOSTS[0]),
        visit(HOSTS[1]),
        visit(HOSTS[2]),
        visit(HOSTS[3]),
    ];
    let Ok(mut world) = open_world::<StickTable>(alloc, &setup, &visits) else {
        println!(rt; "out of memory")?;
        return Ok(true);
    };
    lead(rt, &mut world)
}
