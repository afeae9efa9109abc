//! How the tables are kept, as the command line says; `stickd` reads it for `replay` and `run`.

ghost use Rattle.std.specs.Prelude.{◌≤◌};

use clap::ArgMatches;
use rule_addresses::Prefixes;

/// In how many parts each table is kept. That it is 1 to 64 was seen as the command line was read.
fn read_shards(arguments: &ArgMatches<'_>) -> u32
    ensures some { 1 ≤ result }
    ensures few { result ≤ 64 }
{
    arguments.get_one::<u32>("shards").unwrap_or(1).clamp(1, 64)
}

/// How many of its oldest entries a full table removes for a new one. That it is 1 to 1,024 was seen as the command line
/// was read.
fn read_purge(arguments: &ArgMatches<'_>) -> u32
    ensures some { 1 ≤ result }
    ensures few { result ≤ 1024 }
{
    arguments
        .get_one::<u32>("purge")
        .unwrap_or(1)
        .clamp(1, 1024)
}

/// How many of a source's first bits count where it is a key, as an option says that goes from 1 to so many. That it does was seen
/// as the command line was read.
fn read_prefix(arguments: &ArgMatches<'_>, option: &str, most: u8) -> u8
    requires { 1 ≤ most }
    ensures some { 1 ≤ result }
    ensures few { result ≤ most }
{
    let most = u32::from(most);
    arguments
        .get_one::<u32>(option)
        .unwrap_or(most)
        .clamp(1, most) as u8
}

/// How each table is kept: in so many shards, and removing so many of its oldest entries for a new one where it is full. And
/// how much of a source is a key there.
#[derive(Clone, Copy, Debug)]
pub struct Keeping {
    /// 1 to 64.
    pub shards: u32,
    /// 1 to 1,024.
    pub purge: u32,
    /// 1 to 32 bits of IPv4, and 1 to 128 of IPv6.
    pub prefixes: Prefixes,
}

/// How each table is kept, as the words say or, where they don't, in one shard, one entry for another, and by whole sources.
pub fn read_keeping(arguments: &ArgMatches<'_>) -> Keeping
    ensures shards { (1 ≤ result.shards) × (result.shards ≤ 64) }
    ensures purge { (1 ≤ result.purge) × (result.purge ≤ 1024) }
    ensures ipv4 { (1 ≤ result.prefixes.ipv4) × (result.prefixes.ipv4 ≤ 32) }
    ensures ipv6 { (1 ≤ result.prefixes.ipv6) × (result.prefixes.ipv6 ≤ 128) }
{
    Keeping {
        shards: read_shards(arguments),
        purge: read_purge(arguments),
        prefixes: Prefixes {
            ipv4: read_prefix(arguments, "ipv4-prefix", 32),
            ipv6: read_prefix(arguments, "ipv6-prefix", 128),
        },
    }
}

/// How each table is kept where a saved file is compared with a configuration: in as many shards as the words say, which is all that
/// matters to whether its entries fit.
pub fn read_checked_keeping(arguments: &ArgMatches<'_>) -> Keeping
    ensures shards { (1 ≤ result.shards) × (result.shards ≤ 64) }
    ensures purge { (1 ≤ result.purge) × (result.purge ≤ 1024) }
{
    Keeping {
        shards: read_shards(arguments),
        purge: 1,
        prefixes: Prefixes {
            ipv4: 32,
            ipv6: 128,
        },
    }
}
