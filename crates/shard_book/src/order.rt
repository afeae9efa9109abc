//! Rows in the order of their keys; `joining` and `table_cli` call it for the replies of all shards.

ghost use Rattle.std.specs.Prelude.{◌≡◌, true, IfOk, OnErr};
ghost use Rattle.stick_model.specs.Step.{shows_rows};
ghost use Rattle.shard_book.specs.Total.{IsShown};

use base_sequence::NoMemory;
use stick_model::Reply;

/// The reply with its rows in the order of their keys. Only rows want memory.
#[tactic(auto, using(crate::proofs::TotalLemmas::in_order))]
pub fn in_key_order(reply: Reply) -> Result<Reply, NoMemory>
    ensures shown { IfOk result (IsShown reply) }
    ensures memory { OnErr result (shows_rows reply ≡ true) }
{
    match reply {
        Reply::Rows { used, rows } => Ok(Reply::Rows {
            used,
            rows: rows.in_key_order()?,
        }),
        reply => Ok(reply),
    }
}
