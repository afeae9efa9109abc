//! The adoption of an HAProxy configuration: what stickd runs in its place, and a report; `stickd adopt` calls `adopt_file`.
//!
//! What is written is a configuration and a command line. The report says of each line whether it is kept, rewritten, or left out
//! with a reason.
//!
//! A file is read into a `Plan`: its sections, the one frontend that is served and its backend, and what their rules track. Then
//! each line has a `Fate`, and options of the command line stand for lines of limits and times.
//!
//! `stickd run --haproxy` calls `take_file`, and runs what was made of the file; `with_options` has its command line.
#![tactic(auto)]

mod actions;
mod addresses;
mod adoption;
mod calls;
mod checked;
mod choices;
mod command;
mod conditions;
mod criteria;
mod entries;
mod fates;
mod fetches;
mod file;
mod guards;
mod headers;
mod headings;
mod keywords;
mod lexer;
mod listeners;
mod manual;
mod masks;
mod options;
mod plan;
mod proxy_lines;
mod reasons;
mod report;
mod roles;
mod rule_lines;
mod rules;
mod sections;
mod servers;
mod source_lines;
mod standing;
mod start_words;
mod status;
mod summary;
mod tables;
mod texts;
mod values;
mod variables;
mod waits;
mod written;

pub use adoption::{Adoption, adopt, wanted_files};
pub use file::{Asked, adopt_file, take_file};
pub use options::CommandOption;
pub use plan::Wishes;
pub use start_words::{WordsFault, with_options};
pub use status::{LOST, SAME, status_of};
pub use texts::text_of;
pub use written::Adopted;
