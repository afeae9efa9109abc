//! The address of the service manager's socket; `Notifier` sends to it.

ghost use Rattle.std.specs.Prelude.{◌≡◌, ◌+◌, ◌∷◌, ◌≤◌, [], take, drop, length, IfSome};
ghost use Rattle.std.specs.Option.{SomeIff};
ghost use Rattle.std.specs.Prelude.{IsSome, ◌↔◌};
ghost use Rattle.tcp_watch.specs.Messages.{IsAddress, first_of};

use libc::net::_SS_SIZE;

/// How many bytes a path or a name has at most: the system's address has 108, and a path ends with a zero (unix(7)).
const MAX_NAME: usize = 107;

/// Where a service manager takes messages: the bytes of a Unix socket's address, and how many of them the system reads.
#[derive(Clone, Copy, Debug)]
pub struct NotifyAddress {
    pub(crate) bytes: [u8; _SS_SIZE],
    pub(crate) length: u32,
    ghost within: { length ≤ 128 },
}

/// The address that `NOTIFY_SOCKET` says: a path from the root, or behind `@` a name that no file has (sd_notify(3)). None for
/// any other, as that of a virtual machine's socket.
pub fn read_address(value: &[u8]) -> Option<NotifyAddress>
    ensures some { IsSome result ↔ IsAddress value.now }
    ensures length { IfSome result (λ address. address.length ≡ 2 + length value.now) }
    ensures family { IfSome result (λ address. take 2 address.bytes ≡ 1 ∷ 0 ∷ []) }
    ensures name { IfSome result (λ address. take (length value.now) (drop 2 address.bytes) ≡ first_of value.now ∷ drop 1 value.now) }
{
    let count = value.len();
    if count < 2 || count > MAX_NAME {
        return None;
    }
    let first = match value[0] {
        b'/' => b'/',
        b'@' => 0,
        _ => return None,
    };
    let mut bytes = [0u8; _SS_SIZE];
    bytes[2..2 + count].copy_from_slice(value);
    bytes[0] = 1;
    bytes[2] = first;
    Some(NotifyAddress {
        bytes,
        length: (2 + count) as u32,
    })
}
