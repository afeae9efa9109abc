//! Who takes a client, by what each worker shows the others; `listener_turn` tells workers by it, and `turning` leaves clients by it.

ghost use Rattle.std.specs.Prelude.{◌≡◌};
ghost use Rattle.tcp_relay.specs.Balance as spec;
ghost use Rattle.tcp_relay.specs.Balance.{is_away, leaves_to, least_of, left_to, shown};

/// What a worker shows that is to be left no client: it has no room, is short of what a client takes, has clients of its own to
/// take, or has ended.
pub(crate) const AWAY: usize = usize::MAX;

/// The most connections of a worker that are told apart.
const MOST: usize = 1 << 32;

/// A worker by its number, and what it shows.
#[derive(Clone, Copy, Debug, PartialEq, Eq)]
pub(crate) struct Candidate {
    pub(crate) worker: usize,
    pub(crate) word: usize,
}

/// What a worker shows that has room, holds so many connections, and waits or is at work. The fewer it holds the less it is; of two
/// that hold as many, less of the one that waits.
pub(crate) fn shown(held: usize, waits: bool) -> usize
    ensures { result ≡ shown held waits }
{
    let twice = held.min(MOST) * 2;
    if waits { twice } else { twice + 1 }
}

/// Whether a worker that shows this waits.
pub(crate) fn is_waiting(word: usize) -> bool
    ensures { result ≡ spec.is_waiting word }
{
    word % 2 == 0
}

/// Whether a worker that shows this is to be left no client.
pub(crate) fn is_away(word: usize) -> bool
    ensures { result ≡ is_away word }
{
    word == AWAY
}

/// Whether a worker that holds so many connections leaves a client to one that shows this, which has room and holds fewer.
pub(crate) fn leaves_to(held: usize, word: usize) -> bool
    ensures { result ≡ leaves_to held word }
{
    !is_away(word) && word / 2 < held
}

/// Whether a worker of so many has no other beside it, by its number. Then it leaves a client to nobody.
pub(crate) fn is_alone(worker: usize, workers: usize) -> bool
    ensures { result ≡ spec.is_alone worker workers }
{
    workers < 2 && worker == 0
}

/// The one of two that shows less, the first where they show as much.
fn less_of(one: Candidate, other: Candidate) -> Candidate
    ensures { result ≡ spec.less_of one other }
{
    if other.word < one.word { other } else { one }
}

/// Who shows least of those of whom this is each one's word, in the places of their numbers: the first of several that show as much.
/// One that is away where all are.
pub(crate) fn least_of(words: &[usize]) -> Candidate
    ensures { result ≡ least_of words.now }
{
    let mut least = Candidate {
        worker: 0,
        word: AWAY,
    };
    for worker in 0..words.len() {
        let word = words[worker];
        least = less_of(least, Candidate { worker, word });
    }
    least
}

/// To whom a worker that holds so many connections leaves a client, by what the others show: to the one that has room and holds
/// least, if it holds fewer.
pub(crate) fn left_to(held: usize, words: &[usize]) -> Option<usize>
    ensures { result ≡ left_to held words.now }
{
    let least = least_of(words);
    if leaves_to(held, least.word) {
        return Some(least.worker);
    }
    None
}
