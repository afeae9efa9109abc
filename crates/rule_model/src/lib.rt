//! What a configuration says: sections, tables, rules, conditions; readers make it, and evaluation, scripts and the proxy go by
//! it.
//!
//! It stands apart from how that is written (HAProxy Configuration Manual 2.8, `tcp-request connection` and section 7, ACLs).
//!
//! `specs/Reading.antt` says how a reader's answer is compared with what its text gives, and `specs/Served.antt` what is served
//! of a configuration.
#![tactic(auto)]

mod actions;
mod criteria;
mod faults;
mod rules;
mod sections;
mod served;

pub use actions::{Action, KeyExpression, Slot};
pub use criteria::{Acl, Criterion, Fetch, Measure, Operator, Pattern};
pub use faults::{Fault, ReadError};
pub use rules::{Condition, Rule, Term};
pub use sections::{Config, Name, NamedSpec, Section, SectionKind, Setup, TableSpec};
pub use served::{LIFE, MAX_REFS, PURGE};
