//! What callers of a table hold who call no more, as one token: the law of records counts what one token has. What admits a
//! crowd calls it.

ghost use Rattle.std.specs.Prelude.{◌≡◌, ◌+◌, ◌<◌, ℕ, true};
ghost use Rattle.stick_model.specs.Key.{Key};
ghost use Rattle.shard_record.specs.Calls.{passed_in};
ghost use Rattle.shard_record.specs.Telling.{log_of};
ghost use Rattle.shard_locks.specs.Holding.{HoldsPassed, count_held};
ghost use Rattle.shard_locks.specs.Shared.{WasOut};
ghost use Rattle.shard_locks.specs.ShardsState.{book_of};

use crate::insisting::insist;
use crate::{Shards, SharedRef, SharedSeat};
use shard_record::{Naming, Token};
use std::sync::Wait;
use stick_table::Table;

impl<T: Table, J: Naming> Shards<T, J> {
    /// What a caller holds who has no reference.
    pub fn held_none(&self, seat: SharedSeat<J>) -> Token<J>
        ensures none { count_held self.now result ≡ 0 }
        ensures passed { (limit : ℕ) → HoldsPassed self.now limit result }
    {
        let _ = &self.spec;
        seat.into_token()
    }

    /// What a caller holds who has a reference, which it gives up. Where that has passed a limit, by what its seat knows, so has
    /// all that it holds.
    pub fn held_one(&self, rt: &impl Wait, seat: SharedSeat<J>, reference: SharedRef<J>) -> Token<J>
        requires shard { reference.shard < self.now.shards }
        ensures one { count_held self.now result ≡ 1 }
        ensures passed { (key : Key) (limit : ℕ) → WasOut (log_of (book_of self.now reference.shard) seat.known) reference.ticket key
            → passed_in key limit (log_of (book_of self.now reference.shard) seat.known) (reference.ticket, key) ≡ true → HoldsPassed self.now limit result }
    {
        let own = self.book_of(reference.shard());
        let (book, token) = reference.into_token();
        insist(rt, book == own);
        let mut held = seat.into_token();
        self.records.join(&mut held, token);
        held
    }

    /// What two callers hold. Where all that each holds has passed a limit, all that both hold has.
    pub fn held_both(&self, mut first: Token<J>, second: Token<J>) -> Token<J>
        ensures both { count_held self.now result ≡ count_held self.now first + count_held self.now second }
        ensures passed { (limit : ℕ) → HoldsPassed self.now limit first → HoldsPassed self.now limit second → HoldsPassed self.now limit result }
    {
        self.records.join(&mut first, second);
        first
    }
}
