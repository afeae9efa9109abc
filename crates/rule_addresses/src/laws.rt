//! Laws of networks, endpoints and prefixes; each is the contract of an empty function, which no code calls.
ghost use Rattle.rule_addresses.specs.Laws.{ComparesBitsOfAddress, ComparesFirstBits, HoldsItself, JoinsIpv4, JoinsIpv6, LeavesWhole, MasksMapped, MasksOnce, PortsAreSome, ServersReadAsBinds};

/// A network compares the first bits of two addresses, as many as it says.
pub fn compares_first_bits()
    ensures { ComparesFirstBits }
{}

/// A network that is read compares no more bits than its address has, and holds that address.
pub fn networks_hold_their_address()
    ensures bits { ComparesBitsOfAddress }
    ensures holds { HoldsItself }
{}

/// Where a text says where a server listens, a listener binds there too; ports are from 1 to 65535.
pub fn servers_read_as_binds()
    ensures binds { ServersReadAsBinds }
    ensures ports { PortsAreSome }
{}

/// Masking twice is masking once. Where all bits are kept, an address stays as it is; one that stands for an IPv4 address keeps what
/// that keeps.
pub fn masks_once()
    ensures once { MasksOnce }
    ensures whole { LeavesWhole }
    ensures mapped { MasksMapped }
{}

/// Two addresses of one kind become one exactly where they agree in the bits that are kept.
pub fn joins_what_agrees()
    ensures ipv4 { JoinsIpv4 }
    ensures ipv6 { JoinsIpv6 }
{}
