//! The groups of the system, read from /etc/group; `tcp_proxy` finds a socket's group by its name.

ghost use Rattle.std.specs.Prelude.{◌≡◌};
ghost use Rattle.base_lines.specs.Parts.{parts, is_line_end};
ghost use Rattle.table_socket.specs.Groups.{group_of_line, first_group, parts_of_line};

use base_lines::{Parts, read_number};

/// A number that no group has: chown(2) reads it as 'the same as before'.
const NO_GROUP: u64 = 0xffff_ffff;

/// The number of the group in a line of group(5), where that is the group of this name.
fn group_in(line: &[u8], name: &[u8]) -> Option<u32>
    ensures { result ≡ group_of_line name.now (parts_of_line line.now) }
{
    let mut fields = Parts::new(line, b':');
    let (Some(first), Some(_password), Some(digits)) = (fields.next(), fields.next(), fields.next())
    else {
        return None;
    };
    if first != name {
        return None;
    }
    match read_number(digits) {
        Some(number) if number < NO_GROUP => Some(number as u32),
        _ => None,
    }
}

/// The number of a group, by its name, in a text as /etc/group has (group(5)): that of the first line that has the name and a number.
pub fn group_number(text: &[u8], name: &[u8]) -> Option<u32>
    ensures { result ≡ first_group name.now (parts is_line_end text.now) }
{
    let mut lines = Parts::new(text, b'\n');
    while let Some(line) = lines.next() {
        let found = group_in(line, name);
        if found.is_some() {
            return found;
        }
    }
    None
}
