//! The name that a configuration gives the server; `stickd run` tells it on the stats socket.

ghost use Rattle.std.specs.Prelude.{◌≡◌, [], false, option_map};
ghost use Rattle.rule_model.specs.Served.{proxy_of};
ghost use Rattle.rule_words.specs.Lines.{lines_of};
ghost use Rattle.stickd_input.specs.Servers as spec;
ghost use Rattle.stickd_input.specs.Servers.{server_in, server_name_of};

use crate::first_frontend;
use base_lines::{Blanks, Words};
use rule_model::{Config, Section};
use rule_words::{Lines, before_comment, next_or_empty};

/// Whether a line stands in the section of a name, by its own first two words, and whether the line above does. The line that begins a
/// section stands in it.
fn is_in_section(is_above: bool, keyword: &[u8], name: &[u8], section: &[u8]) -> bool
    ensures { result ≡ spec.is_in_section is_above keyword.now name.now section.now }
{
    if keyword == b"frontend".as_slice()
        || keyword == b"backend".as_slice()
        || keyword == b"listen".as_slice()
    {
        return name == section;
    }
    if keyword == b"global".as_slice() || keyword == b"defaults".as_slice() {
        return false;
    }
    is_above
}

/// The name on the first line `server` of a section.
fn find_server<'a>(text: &'a [u8], section: &[u8]) -> Option<&'a [u8]>
    ensures { option_map (λ name. name.now) result ≡ server_in section.now false (lines_of text.now) }
{
    let mut lines = Lines::new(text);
    let mut is_inside = false;
    while let Some(line) = lines.next() {
        let mut words = Words::new(before_comment(line), Blanks::SpacesAndTabs);
        let keyword = next_or_empty(&mut words);
        let name = next_or_empty(&mut words);
        is_inside = is_in_section(is_inside, keyword, name, section);
        if is_inside && keyword == b"server".as_slice() {
            return Some(name);
        }
    }
    None
}

/// The name on a section's own line `server`, or on that of its default backend.
fn find_served<'a>(text: &'a [u8], proxy: &Section) -> Option<&'a [u8]>
    ensures { option_map (λ name. name.now) result ≡ spec.served_name proxy.now (lines_of text.now) }
{
    match find_server(text, proxy.name.as_slice()) {
        Some(name) => Some(name),
        None => match &proxy.default_backend {
            Some(backend) => find_server(text, backend.as_slice()),
            None => None,
        },
    }
}

/// The name of the server to which the section that is served relays, in the text of its configuration: empty where there is none.
pub fn server_name<'a>(config: &Config, text: &'a [u8]) -> &'a [u8]
    ensures { result.now ≡ server_name_of (proxy_of config.now.sections) (lines_of text.now) }
{
    let Some(proxy) = first_frontend(config.sections.as_slice()) else {
        return b"";
    };
    match find_served(text, proxy) {
        Some(name) => name,
        None => b"",
    }
}
