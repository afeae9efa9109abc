//! What headers tell; `hear` answers it, and `write` is given the ends.

use rule_addresses::Address;

/// The two ends of a TCP connection, as the proxy that accepted it knows them.
#[derive(Clone, Copy, Debug)]
pub struct Ends {
    /// Where the client is.
    pub source: Address,
    /// Where the client connected to.
    pub destination: Address,
    pub source_port: u16,
    pub destination_port: u16,
}

/// What the first bytes of a connection say.
#[derive(Clone, Copy, Debug)]
pub enum Heard {
    /// They may begin a header: more bytes are to be waited for.
    Unfinished,
    /// They begin no header that is right, whatever follows.
    Wrong,
    /// They begin with a whole header.
    Told {
        /// How many bytes the header has: what the client says begins behind them.
        length: usize,
        /// The ends that it tells. Where it tells none, those of the connection itself count.
        ends: Option<Ends>,
    },
}
