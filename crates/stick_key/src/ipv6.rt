//! IPv6 addresses, read and printed; `text` and `sample` use it, and `rule_addresses` and `rule_eval` from outside.

mod groups;
mod mapped;
mod printer;
mod reader;

pub(crate) use mapped::mapped;
pub use mapped::unmapped;
pub(crate) use printer::print_ipv6;
pub use reader::read_ipv6;
