//! The replies of shards, added up; `table_cli` adds them one by one, and `shard_locks` joins those of a listing.

ghost use Rattle.std.specs.Prelude.{◌≡◌, ◌≤◌, ◌^◌, true, All, IfOk, IfSome, OnErr, length};
ghost use Rattle.stick_model.specs.Step.{shows_rows};
ghost use Rattle.shard_book.specs.Total.{IsCounted, IsShown, both as specified_both, together, total};

use crate::order::in_key_order;
use base_sequence::NoMemory;
use stick_model::Reply;

/// The replies of two shards together.
fn both(first: Reply, second: Reply) -> Result<Reply, NoMemory>
    requires first { IsCounted (2 ^ 62) first }
    requires second { IsCounted (2 ^ 62) second }
    ensures both { IfOk result (λ reply. reply ≡ specified_both first second) }
    ensures memory { OnErr result (shows_rows second ≡ true) }
{
    match (first, second) {
        (
            Reply::Rows { used, rows },
            Reply::Rows {
                used: more,
                rows: others,
            },
        ) => Ok(Reply::Rows {
            used: used + more,
            rows: rows.followed_by(others)?,
        }),
        (
            Reply::Cleared { removed, kept },
            Reply::Cleared {
                removed: more,
                kept: others,
            },
        ) => Ok(Reply::Cleared {
            removed: removed + more,
            kept: kept + others,
        }),
        (first, _) => Ok(first),
    }
}

/// The replies so far, if there are any, and one more. Only rows want memory.
pub fn added(so_far: Option<Reply>, reply: Reply) -> Result<Reply, NoMemory>
    requires so_far { IfSome so_far (IsCounted (2 ^ 62)) }
    requires reply { IsCounted (2 ^ 62) reply }
    ensures added { IfOk result (λ all. all ≡ together so_far reply) }
    ensures memory { OnErr result (shows_rows reply ≡ true) }
{
    match so_far {
        None => Ok(reply),
        Some(before) => both(before, reply),
    }
}

/// What the replies of all shards come to; `Absent`, where there is none.
fn total_of(replies: Vec<Reply>) -> Result<Reply, NoMemory>
    requires few { length replies.items ≤ 2 ^ 32 }
    requires counted { All (IsCounted (2 ^ 30)) replies.items }
    ensures { IfOk result (λ reply. reply ≡ total replies.items) }
{
    let mut so_far = None;
    for reply in replies {
        so_far = Some(added(so_far, reply)?);
    }
    match so_far {
        Some(reply) => Ok(reply),
        None => Ok(Reply::Absent),
    }
}

/// What the replies of all shards come to, rows in the order of their keys; `Absent`, where there is none.
pub fn joined(replies: Vec<Reply>) -> Result<Reply, NoMemory>
    requires few { length replies.items ≤ 2 ^ 32 }
    requires counted { All (IsCounted (2 ^ 30)) replies.items }
    ensures { IfOk result (IsShown (total replies.items)) }
{
    in_key_order(total_of(replies)?)
}
