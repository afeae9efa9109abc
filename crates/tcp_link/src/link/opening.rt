//! How a link begins; `tcp_relay` calls `open` for each admitted client.

ghost use Rattle.std.specs.Prelude.{◌≡◌, ◌<◌, ◌≤◌, true, false, vec_len, IfErr, IfOk};
ghost use Rattle.tcp_link.specs.Links.{opened, waits};
ghost use Rattle.tcp_link.specs.Retries.{refused_at};

use super::Link;
use crate::end::End;
use crate::way::Way;
use crate::{ServerSocket, Unopened};
use mio::net::TcpStream;
use std::net::Net;

impl Link {
    /// Begins to connect a client to its server, at a moment in ms. The server is given a greeting first, where that has bytes, from
    /// whose allocator the link takes memory. A server that refuses may be tried again so many times. Where the system says at once
    /// that it can't connect, it waits for the first of these. If there are none that is an error, with which the client comes back as
    /// it was: whoever closes it has then done first what is to come before that.
    pub fn open(
        _rt: &impl Net,
        client: TcpStream,
        server: ServerSocket,
        greeting: Vec<u8>,
        moment: u64,
        retries: u32,
    ) -> Result<Link, Unopened>
        requires greeting { vec_len greeting ≤ 65536 }
        ensures open { IfOk result (λ link. waits link ≡ false → link ≡ opened greeting.items moment retries) }
        ensures refused { IfOk result (λ link. waits link ≡ true → (0 < retries) × (link ≡ refused_at moment (opened greeting.items moment retries))) }
        ensures last { IfErr result (λ _. retries ≡ 0) }
        ensures client { IfErr result (λ unopened. unopened.client ≡ client) }
    {
        match server.connect() {
            Ok(socket) => Ok(Link::new(client, socket, greeting, moment, retries)),
            Err(refusal) if retries == 0 => Err(Unopened::new(client, refusal.cause())),
            Err(refusal) => {
                let number = refusal.number;
                let mut link = Link::new(client, refusal.socket, greeting, moment, retries);
                link.server.note(number);
                link.refuse(moment);
                Ok(link)
            }
        }
    }

    /// A link between these sockets, through which nothing has passed.
    fn new(
        client: TcpStream,
        server: TcpStream,
        greeting: Vec<u8>,
        moment: u64,
        retries: u32,
    ) -> Link
        requires greeting { vec_len greeting ≤ 65536 }
        ensures { result ≡ opened greeting.items moment retries }
    {
        let alloc = *greeting.allocator();
        let length = greeting.len() as u64;
        Link {
            client: End::new(client, moment),
            server: End::new(server, moment),
            there: Way::greeting(greeting),
            back: Way::new(alloc),
            is_accepted: false,
            tries: retries,
            refused: None,
            is_gone: false,
            greeting: length,
            alloc,
        }
    }
}
