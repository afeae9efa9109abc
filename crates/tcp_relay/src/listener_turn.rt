//! Whose turn it is at the listener; `turning` begins and ends a worker's waits here, and asks whether it leaves clients to others.
//!
//! If all workers watched the listener, each connection would wake all of them, and one would get it. So one is told of clients. Once
//! it has accepted one, whoever holds fewer connections is told of the next, before the rules and the gate are asked. What comes is
//! left to the one that holds least, also where that is at work: so none has more clients that stay than the others. Whoever is told
//! anew hears also of those that wait already.
//!
//! Nobody waits for a worker that is held up. Whoever leaves a client holds a connection, and so looks each tick at the one that is
//! told. If that is at work, and has begun no wait since the last look, the one that looks is told in its place, and leaves it nothing
//! until it waits again.

ghost use Rattle.std.specs.Prelude.{◌≤◌};

use crate::acceptor::Pause;
use crate::balance::{
    AWAY, Candidate, is_alone, is_away, is_waiting, least_of, leaves_to, left_to,
};
use crate::standing::{NOBODY, Seen, Stand, Told, claims, gives_on, is_held_up, told_as, word_of};
use crate::watch::{CONNECTIONS, LISTENER, NOTHING};
use base_sequence::NoMemory;
use crossbeam_utils::CachePadded;
use mio::unix::SourceFd;
use mio::{Interest, Registry};
use std::alloc::Global;
use std::os::fd::RawFd;
use std::sync::atomic::{AtomicUsize, Ordering};
use std::sync::{Mutex, Wait};

/// The most workers.
const WORKERS: usize = 64;

/// What a worker shows the others.
#[derive(Drop)]
struct Shown {
    word: AtomicUsize,
    /// How often it has begun to wait, modulo the words of the machine.
    waits: AtomicUsize,
}

impl Shown {
    /// Of a worker that is away, and hasn't waited yet.
    fn new() -> Shown {
        Shown {
            word: AtomicUsize::new(AWAY),
            waits: AtomicUsize::new(0),
        }
    }
}

/// The workers of a listener, of whom one at a time is told of new connections.
#[derive(Drop)]
pub(crate) struct ListenerTurn {
    /// What is readable while a client waits. None where it can't be watched; no worker runs then.
    watched: Option<RawFd>,
    /// Through which each worker is told, by its number.
    registries: Vec<Registry>,
    /// What each worker shows, by its number. Padded, so that no two write on one line of a processor's cache.
    shown: Vec<CachePadded<Shown>>,
    /// Who is told of clients.
    told: CachePadded<AtomicUsize>,
    /// Under which it is changed.
    changes: Mutex<()>,
}

impl ListenerTurn {
    /// All are away, and nobody is told.
    pub(crate) fn new(watched: Option<RawFd>, parts: TurnParts) -> ListenerTurn {
        let TurnParts { registries, shown } = parts;
        ListenerTurn {
            watched,
            registries,
            shown,
            told: CachePadded::new(AtomicUsize::new(NOBODY)),
            changes: Mutex::new(()),
        }
    }

    /// Who is told of clients.
    fn told(&self) -> usize {
        self.told.load(Ordering::SeqCst)
    }

    /// The same, as a worker sees it.
    fn told_as(&self, worker: usize) -> Told {
        let told = self.told();
        told_as(worker, told, self.word(told))
    }

    /// Whether another than a worker is told of clients.
    fn tells_another(&self, worker: usize) -> bool {
        match self.told_as(worker) {
            Told::Waiting | Told::Working => true,
            Told::Nobody | Told::Itself => false,
        }
    }

    /// What a worker shows.
    fn word(&self, worker: usize) -> usize {
        match self.shown.get(worker) {
            Some(shown) => shown.word.load(Ordering::SeqCst),
            None => AWAY,
        }
    }

    /// How often a worker has begun to wait.
    fn waits(&self, worker: usize) -> usize {
        match self.shown.get(worker) {
            Some(shown) => shown.waits.load(Ordering::SeqCst),
            None => 0,
        }
    }

    /// What the others show, in the places of their numbers, to a worker, which is away there.
    fn others(&self, worker: usize) -> [usize; WORKERS] {
        let mut words = [AWAY; WORKERS];
        for other in 0..self.count() {
            if other != worker {
                words[other] = self.word(other);
            }
        }
        words
    }

    /// How many workers there are.
    fn count(&self) -> usize
        ensures few { result ≤ 64 }
    {
        self.shown.as_slice().len().min(WORKERS)
    }

    /// Shows of a worker that was at work that it is away, unless it shows something else by now.
    fn pass_over(&self, worker: usize) {
        let Some(shown) = self.shown.get(worker) else {
            return;
        };
        let word = shown.word.load(Ordering::SeqCst);
        if !is_waiting(word) {
            let order = Ordering::SeqCst;
            let _ = shown.word.compare_exchange(word, AWAY, order, order);
        }
    }

    /// What a worker is told of the listener from now on; at once, if there is something.
    fn tell(&self, worker: usize, what: Interest) {
        let (Some(watched), Some(registry)) = (self.watched, self.registries.get(worker)) else {
            return;
        };
        // It is registered, so the system has no reason to refuse.
        let _ = registry.reregister(&mut SourceFd(&watched), LISTENER, what);
    }

    /// Has a worker told in place of who is, or nobody. First it is known: a worker that is told, and still took another for the one
    /// that is, would leave it the clients of which it alone hears.
    fn tell_instead(&self, worker: usize) {
        let former = self.told();
        self.told.store(worker, Ordering::SeqCst);
        self.tell(former, NOTHING);
        self.tell(worker, CONNECTIONS);
    }
}

/// What a turn at the listener is made of, before any worker begins.
#[derive(Drop)]
pub(crate) struct TurnParts {
    registries: Vec<Registry>,
    shown: Vec<CachePadded<Shown>>,
}

impl TurnParts {
    /// Room for so many workers.
    pub(crate) fn reserve(alloc: Global, workers: usize) -> Result<TurnParts, NoMemory> {
        Ok(TurnParts {
            registries: Vec::with_capacity(alloc, workers)?,
            shown: Vec::with_capacity(alloc, workers)?,
        })
    }

    /// The next worker's registry. False where there is no room for it.
    pub(crate) fn add(&mut self, registry: Registry) -> bool {
        let shown = CachePadded::new(Shown::new());
        self.shown.push(shown).is_ok() && self.registries.push(registry).is_ok()
    }
}

/// A worker's part in the turns at the listener.
#[derive(Drop)]
pub(crate) struct WorkerTurn<'a> {
    listener_turn: &'a ListenerTurn,
    worker: usize,
    /// How it stood when it last began to wait; what it holds, as of now.
    stand: Stand,
    /// What it shows, unless it was passed over.
    word: usize,
    /// What the one of the others showed that showed least, when it last looked in this turn.
    least: usize,
    /// How often it has begun to wait.
    waits: usize,
    /// Who was told at its last tick, where that was another that was at work.
    seen: Option<Seen>,
}

impl<'a> WorkerTurn<'a> {
    /// The part of a worker that hasn't waited yet.
    pub(crate) fn new(listener_turn: &'a ListenerTurn, worker: u32) -> WorkerTurn<'a> {
        WorkerTurn {
            listener_turn,
            worker: worker as usize,
            stand: Stand::away(),
            word: AWAY,
            least: 0,
            waits: 0,
            seen: None,
        }
    }

    /// Shows how it stands, and whether it waits.
    fn show(&mut self, waits: bool) {
        let word = word_of(self.stand, waits);
        if word == self.word {
            return;
        }
        self.word = word;
        if let Some(shown) = self.listener_turn.shown.get(self.worker) {
            shown.word.store(word, Ordering::SeqCst);
        }
    }

    /// Shows that it begins to wait once more.
    fn count_wait(&mut self) {
        self.waits = self.waits.wrapping_add(1);
        if let Some(shown) = self.listener_turn.shown.get(self.worker) {
            shown.waits.store(self.waits, Ordering::SeqCst);
        }
    }

    /// Whether there is no other worker, to whom a client could be left.
    fn is_alone(&self) -> bool {
        is_alone(self.worker, self.listener_turn.count())
    }

    /// What the one of the others shows that shows least.
    fn look(&self) -> Candidate {
        let words = self.listener_turn.others(self.worker);
        least_of(words.as_slice().split_at(self.listener_turn.count()).0)
    }

    /// It begins a wait: where it only looks whether something is ready it stays at work.
    pub(crate) fn begin(&mut self, rt: &impl Wait, stand: Stand, pause: Pause) {
        self.stand = stand;
        self.count_wait();
        self.show(pause != Pause::NotAtAll);
        let is_bounded = pause != Pause::UntilReady;
        let told = self.listener_turn.told_as(self.worker);
        if claims(told, stand.can_accept, is_bounded) {
            self.take(rt, is_bounded);
        }
        if gives_on(told, stand.can_accept, stand.may_have) {
            self.give_on(rt);
        }
    }

    /// It waits no more.
    pub(crate) fn end(&mut self) {
        self.show(false);
        self.least = 0;
    }

    /// A tick has passed: if another is told of clients that has been at work since the last one, this one is told in its place, and
    /// leaves it none until it waits again.
    pub(crate) fn look_after(&mut self, rt: &impl Wait) {
        let worker = self.listener_turn.told();
        let waits = self.listener_turn.waits(worker);
        let told = self.listener_turn.told_as(self.worker);
        let seen = (told == Told::Working).then_some(Seen { worker, waits });
        let is_bounded = !is_held_up(self.seen, seen);
        self.seen = seen;
        if claims(told, self.stand.can_accept, is_bounded) {
            self.listener_turn.pass_over(worker);
            self.take(rt, is_bounded);
        }
    }

    /// It ends: it is left no client any more.
    pub(crate) fn finish(&mut self, rt: &impl Wait) {
        self.stand = Stand::away();
        self.show(false);
        self.give_on(rt);
    }

    /// It holds so many connections.
    pub(crate) fn hold(&mut self, held: usize) {
        self.stand.held = held;
        self.show(false);
    }

    /// It has accepted a client, and holds so many connections beside. If one holds fewer than it would with that client, it is told of
    /// the next.
    pub(crate) fn pass(&self, rt: &impl Wait, held: usize) {
        // One that is alone leaves a client to nobody, whatever is shown: it takes no lock for that with each client.
        if !self.is_alone() && self.listener_turn.told() == self.worker {
            let _is_left = self.leave(rt, held.saturating_add(1));
        }
    }

    /// Whether the clients that wait are another's, where it holds so many connections: that is told of them then, or was before.
    pub(crate) fn leaves(&mut self, rt: &impl Wait, held: usize) -> bool {
        if self.is_alone() || !leaves_to(held, self.least) {
            return false;
        }
        self.least = self.look().word;
        leaves_to(held, self.least) && self.leave(rt, held)
    }

    /// Has one that holds fewer told of the clients that wait, unless another is. Whether another is now.
    fn leave(&self, rt: &impl Wait, held: usize) -> bool {
        let listener_turn = self.listener_turn;
        if listener_turn.tells_another(self.worker) {
            return true;
        }
        let _changes = listener_turn.changes.lock(rt);
        if listener_turn.tells_another(self.worker) {
            return true;
        }
        let words = listener_turn.others(self.worker);
        match left_to(held, words.as_slice().split_at(listener_turn.count()).0) {
            Some(taker) => {
                listener_turn.tell_instead(taker);
                true
            }
            None => false,
        }
    }

    /// It is told of clients in place of who is, if it still may be.
    fn take(&self, rt: &impl Wait, is_bounded: bool) {
        let listener_turn = self.listener_turn;
        let _changes = listener_turn.changes.lock(rt);
        let told = listener_turn.told_as(self.worker);
        if claims(told, self.stand.can_accept, is_bounded) {
            listener_turn.tell_instead(self.worker);
        }
    }

    /// If it is told of clients, whoever holds least of the others is in its place. Where all are away it stays told, if it can accept
    /// some; else nobody is.
    fn give_on(&self, rt: &impl Wait) {
        let listener_turn = self.listener_turn;
        let _changes = listener_turn.changes.lock(rt);
        if listener_turn.told() != self.worker || self.tell_next() || self.stand.can_accept {
            return;
        }
        listener_turn.tell_instead(NOBODY);
        // One may have had no room when it was looked at, and seen since that somebody was told.
        let _is_told = self.tell_next();
    }

    /// Has the one told that holds least of the others, if there is one with room. Whether there is.
    fn tell_next(&self) -> bool {
        let next = self.look();
        if is_away(next.word) {
            return false;
        }
        self.listener_turn.tell_instead(next.worker);
        true
    }
}
