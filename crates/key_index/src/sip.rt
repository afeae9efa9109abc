//! SipHash-1-3 of the bytes of an address, 4 or 16, by whole words; `Index` hashes addresses by it.
//!
//! A hasher that takes any bytes goes through the last of them one by one.
ghost use Rattle.std.specs.Prelude.{◌≡◌, length};
ghost use Rattle.core.specs.Hash.DefaultHasher.{round, write_word, with_keys, finish, write};
ghost use Rattle.key_index.specs.Sip.{state_of, finished_by};

use crate::words::{half_word, word};

/// The state of the hash.
#[derive(Clone, Copy)]
struct Sip {
    v0: u64,
    v1: u64,
    v2: u64,
    v3: u64,
}

#[inline(always)]
fn keyed(seed: u64) -> Sip
    ensures { state_of result ≡ with_keys seed seed }
{
    Sip {
        v0: seed ^ 0x736f_6d65_7073_6575,
        v1: seed ^ 0x646f_7261_6e64_6f6d,
        v2: seed ^ 0x6c79_6765_6e65_7261,
        v3: seed ^ 0x7465_6462_7974_6573,
    }
}

#[inline(always)]
fn rounded(s: Sip) -> Sip
    ensures { state_of result ≡ round (state_of s) }
{
    let a0 = s.v0.wrapping_add(s.v1);
    let a2 = s.v2.wrapping_add(s.v3);
    let a1 = s.v1.rotate_left(13) ^ a0;
    let a3 = s.v3.rotate_left(16) ^ a2;
    let b2 = a2.wrapping_add(a1);
    let b0 = a0.rotate_left(32).wrapping_add(a3);
    Sip {
        v0: b0,
        v1: a1.rotate_left(17) ^ b2,
        v2: b2.rotate_left(32),
        v3: a3.rotate_left(21) ^ b0,
    }
}

#[inline(always)]
fn with_word(s: Sip, word: u64) -> Sip
    ensures { state_of result ≡ write_word (state_of s) word }
{
    let mixed = rounded(Sip {
        v0: s.v0,
        v1: s.v1,
        v2: s.v2,
        v3: s.v3 ^ word,
    });
    Sip {
        v0: mixed.v0 ^ word,
        v1: mixed.v1,
        v2: mixed.v2,
        v3: mixed.v3,
    }
}

// The hash, where this is the last word: the length and the bytes of no whole word.
#[inline(always)]
fn finished(s: Sip, last: u64) -> u64
    ensures { result ≡ finished_by (state_of s) last }
{
    let mixed = with_word(s, last);
    let end = rounded(rounded(rounded(Sip {
        v0: mixed.v0,
        v1: mixed.v1,
        v2: mixed.v2 ^ 0xff,
        v3: mixed.v3,
    })));
    end.v0 ^ end.v1 ^ end.v2 ^ end.v3
}

/// The hash of four bytes.
#[inline(always)]
pub(crate) fn hash_of_4(seed: u64, bytes: &[u8]) -> u64
    requires { length bytes.now ≡ 4 }
    ensures { result ≡ finish (write (with_keys seed seed) bytes.now) }
{
    finished(keyed(seed), 4 << 56 | half_word(bytes, 0))
}

/// The hash of sixteen bytes.
#[inline(always)]
pub(crate) fn hash_of_16(seed: u64, bytes: &[u8]) -> u64
    requires { length bytes.now ≡ 16 }
    ensures { result ≡ finish (write (with_keys seed seed) bytes.now) }
{
    let state = with_word(keyed(seed), word(bytes, 0));
    finished(with_word(state, word(bytes, 8)), 16 << 56)
}
