//! The groups of an IPv6 address, and its bytes; `reader` and `printer` convert by them.
ghost use Rattle.std.specs.Prelude.{◌≡◌, ◌<◌, ◌≤◌, ◌++◌, [], ◌∷◌, length, flat_map};
ghost use Rattle.std.specs.Option.{SomeIff};
ghost use Rattle.stick_key.specs.Ipv6Text.{group_bytes, pairs};

use std::marker::Model;

/// Up to eight groups.
#[derive(Drop)]
pub(super) struct Groups {
    items: [u16; 8],
    count: usize,
}

impl Model for Groups {
    ghost use Rattle.std.specs.Prelude.{List, ℕ, take, ◌≤◌};

    ghost Value = { List ℕ };

    ghost view = { λ groups. take groups.count groups.items };

    ghost invariant = { λ groups. groups.count ≤ 8 };
}

impl Groups {
    pub(super) fn new() -> Groups
        ensures { result ≡ [] }
    {
        Groups {
            items: [0; 8],
            count: 0,
        }
    }

    pub(super) fn len(&self) -> usize
        ensures { result ≡ length self.now }
    {
        self.count
    }

    pub(super) fn as_slice(&self) -> &[u16]
        ensures { result.now ≡ self.now }
    {
        &self.items[..self.count]
    }

    /// The groups, where there are eight.
    pub(super) fn all(self) -> Option<[u16; 8]>
        ensures { SomeIff result (length self ≡ 8) self }
    {
        if self.count == 8 {
            Some(self.items)
        } else {
            None
        }
    }

    pub(super) fn push(&mut self, group: u16)
        requires { length self.old < 8 }
        ensures { self.new ≡ self.old ++ group ∷ [] }
    {
        self.items[self.count] = group;
        self.count += 1;
    }
}

/// The bytes of eight groups.
pub(super) fn bytes_of(groups: [u16; 8]) -> [u8; 16]
    ensures { result ≡ flat_map group_bytes groups }
{
    let mut bytes = [0; 16];
    for place in 0..8usize {
        let [high, low] = groups[place].to_be_bytes();
        bytes[2 * place] = high;
        bytes[2 * place + 1] = low;
    }
    bytes
}

/// The eight groups of an address.
pub(super) fn groups_of(address: [u8; 16]) -> [u16; 8]
    ensures { result ≡ pairs address }
{
    let mut groups = [0; 8];
    for place in 0..8usize {
        groups[place] = u16::from_be_bytes([address[2 * place], address[2 * place + 1]]);
    }
    groups
}
