//! IPv6 addresses that stand for IPv4 ones (RFC 4291, section 2.5.5.2); `printer`, `sample`, `rule_addresses` and `rule_eval`
//! call it.
ghost use Rattle.std.specs.Prelude.{◌≡◌, ◌++◌, Some, None, drop, if◌then◌else◌};
ghost use Rattle.stick_key.specs.Ipv6Printed.{is_mapped, mapped_prefix};

/// How such addresses begin.
const MAPPED_PREFIX: [u8; 12] = [0, 0, 0, 0, 0, 0, 0, 0, 0, 0, 0xff, 0xff];

/// The address that stands for this IPv4 address.
pub(crate) fn mapped(address: [u8; 4]) -> [u8; 16]
    ensures { result ≡ mapped_prefix ++ address }
{
    let mut bytes = [0; 16];
    bytes[..12].copy_from_slice(&MAPPED_PREFIX);
    bytes[12..].copy_from_slice(&address);
    bytes
}

/// The IPv4 address that this IPv6 address stands for, if any: the last four bytes of one in `::ffff:0:0/96`.
pub fn unmapped(address: [u8; 16]) -> Option<[u8; 4]>
    ensures { result ≡ (if is_mapped address then Some (drop 12 address) else None) }
{
    if !address.starts_with(&MAPPED_PREFIX) {
        return None;
    }
    address.last_chunk().copied()
}
