//! Which permissions a socket's file has; `stickd` reads them of the command line, and `binding` checks them.

ghost use Rattle.std.specs.Prelude.{◌≡◌, ◌≢◌, ◌%◌, ◌↔◌, IsTrue};
ghost use Rattle.std.specs.Option.{SomeIff};
ghost use Rattle.std.specs.Str.Parse.{digits_value};
ghost use Rattle.table_socket.specs.Mode.{IsMode};

/// The permissions that a text says (chmod(1)): one to four octal digits, up to 0777.
pub fn read_mode(text: &str) -> Option<u32>
    ensures { SomeIff result (IsMode text.now) (digits_value 8 text.now) }
{
    if text.len() > 4 || text.starts_with('+') {
        return None;
    }
    match u32::from_str_radix(text, 8) {
        Ok(mode) if mode <= 0o777 => Some(mode),
        _ => None,
    }
}

/// Whether a file whose mode is this lacks permissions that were wanted, as where the process's umask has taken some away
/// (umask(2)). The mode has the file's kind too, above the permissions.
pub fn is_narrowed(wanted: u32, mode: u32) -> bool
    ensures { IsTrue result ↔ (mode % 512 ≢ wanted) }
{
    mode % 512 != wanted
}
