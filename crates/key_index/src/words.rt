//! Bytes by whole words, as those of an address, 4 or 16; `Index` compares keys by it, and `sip` hashes.
//!
//! A word is read and compared at once, where a loop goes through the bytes.
ghost use Rattle.std.specs.Prelude.{◌≡◌, ◌+◌, ◌<◌, ◌≤◌, length, IsTrue, ◌↔◌};
ghost use Rattle.core.specs.Hash.DefaultHasher.{with_byte};
ghost use Rattle.key_index.specs.Sip.{half_of, word_of};

// The word, with a byte at so many bits.
#[inline(always)]
fn with_byte_at(word: u64, place: u32, byte: u8) -> u64
    requires { place < 8 }
    ensures { result ≡ with_byte word place byte }
{
    word | u64::from(byte) << (8 * place)
}

/// Four bytes from here on, the lowest first.
#[inline(always)]
pub(crate) fn half_word(bytes: &[u8], at: usize) -> u64
    requires { at + 4 ≤ length bytes.now }
    ensures { result ≡ half_of bytes.now at }
{
    let low = with_byte_at(with_byte_at(0, 0, bytes[at]), 1, bytes[at + 1]);
    with_byte_at(with_byte_at(low, 2, bytes[at + 2]), 3, bytes[at + 3])
}

/// Eight bytes from here on, the lowest first.
#[inline(always)]
pub(crate) fn word(bytes: &[u8], at: usize) -> u64
    requires { at + 8 ≤ length bytes.now }
    ensures { result ≡ word_of bytes.now at }
{
    let low = with_byte_at(half_word(bytes, at), 4, bytes[at + 4]);
    let low = with_byte_at(low, 5, bytes[at + 5]);
    with_byte_at(with_byte_at(low, 6, bytes[at + 6]), 7, bytes[at + 7])
}

/// Whether two times four bytes are the same.
#[inline(always)]
pub(crate) fn is_same_4(bytes: &[u8], others: &[u8]) -> bool
    requires { (length bytes.now ≡ 4) × (length others.now ≡ 4) }
    ensures { IsTrue result ↔ bytes.now ≡ others.now }
{
    half_word(bytes, 0) == half_word(others, 0)
}

/// Whether two times sixteen bytes are the same.
#[inline(always)]
pub(crate) fn is_same_16(bytes: &[u8], others: &[u8]) -> bool
    requires { (length bytes.now ≡ 16) × (length others.now ≡ 16) }
    ensures { IsTrue result ↔ bytes.now ≡ others.now }
{
    word(bytes, 0) == word(others, 0) && word(bytes, 8) == word(others, 8)
}
