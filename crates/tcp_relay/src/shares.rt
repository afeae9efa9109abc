//! How connections are shared out among workers; `gathering` and `serving` call it.

ghost use Rattle.std.specs.Prelude.{◌≡◌, ◌≤◌, ◌^◌};
ghost use Rattle.tcp_relay.specs.Accepting.{most_of, share_of};

/// How many of so many connections a worker holds at most: as many as the others, or one more of those that can't be shared out
/// evenly.
pub(crate) fn share_of(connections: usize, workers: usize, worker: usize) -> usize
    requires workers { 1 ≤ workers }
    requires connections { connections ≤ 2 ^ 32 }
    ensures share { result ≡ share_of connections workers worker }
    ensures all { result ≤ connections }
    ensures few { result ≤ most_of connections workers }
{
    if worker < connections % workers {
        return connections / workers + 1;
    }
    connections / workers
}
