//! What an operator asks a running stickd on its sockets: commands and their answers, as they come or as JSON, a table's entries as
//! other programs take them, those with the greatest numbers, new rules, and its end.
//!
//! Answers are bytes. Their lines are read, compared and printed by pure functions, whose contracts cite the definitions in
//! `specs`. The socket and the terminal are in `client`, `asking`, `exporting`, `saving`, `showing`, `reloading` and `stopping`, which only
//! call them.
#![tactic(auto)]

mod address_keys;
mod address_sets;
mod asking;
mod client;
mod columns;
mod csv_text;
mod errors;
mod export_form;
mod exported;
mod exporting;
mod hints;
mod json;
mod last_word;
mod lines;
mod listed;
mod marks;
mod progress;
mod progress_line;
mod ranking;
mod reloading;
mod replacing;
mod saved;
mod saving;
mod show_table;
mod showing;
mod stopping;
mod strings;
mod terminal;
mod window;

pub use address_keys::{Family, is_member};
pub use address_sets::{Tool, can_name};
pub use asking::{Ctl, ask_running};
pub use client::PATIENCE;
pub use csv_text::push_csv;
pub use errors::{is_command, is_error};
pub use export_form::{ExportForm, can_filter, read_export_form};
pub use exported::{can_export, count_left_out, push_export};
pub use json::push_json;
pub use last_word::{LastWord, read_last_word};
pub use lines::{Header, is_row, key_of, read_header, value_of};
pub use listed::Listed;
pub use marks::push_marked;
pub use progress::{Progress, is_due, push_progress};
pub use progress_line::ProgressLine;
pub use ranking::{Ranked, greatest};
pub use reloading::{Outcome, Reload, outcome_of, reload_running, said_by};
pub use replacing::{Lying, replace_file, try_to_replace};
pub use saved::{Entry, Saved};
pub use show_table::show_command;
pub use showing::{Top, show_top};
pub use stopping::{AfterLook, Seen, Stop, after_look, is_quiet, pid_of, stop_running};
pub use strings::push_string;
pub use window::{Window, push_fitting};
