//! The words of a configuration's lines: names, sizes, times, `stick-table`, conditions and criteria; `rule_config` reads by it.
//!
//! Others take parts: `stickd_input` lines, `adopt` and `stickd` times. The manual is HAProxy's Configuration Manual 2.8,
//! sections 2.2, 2.5, 4.2 and 7.
//!
//! Contracts cite the definitions in `specs/Conditions.antt`: `criterion_of`, `condition_of` and `tables_of`, which say of whole
//! lists of words what they mean. `Names` says what the first word of a criterion asks, and `Values` which numbers and networks
//! follow; `ElementNames` says which element of an array a rule names.
#![tactic(auto)]

ghost use Rattle.rule_model.specs.Reading.{Gives, demand as demanded};

mod columns;
mod conditions;
mod criteria;
mod elements;
mod lines;
mod names;
mod numbers;
mod table;
mod term_names;
mod values;

pub use conditions::read_condition;
pub use criteria::{read_criterion, table_read};
pub use elements::{SlotElement, read_element};
pub use lines::{Lines, before_comment, is_plain, is_text, next_or_empty};
pub use names::is_name;
pub use numbers::{read_bounded, read_time};
use rule_model::{Fault, ReadError};
pub use table::read_table;

/// A fault where a test fails.
pub fn demand(test: bool, fault: Fault) -> Result<(), ReadError>
    ensures { Gives result (demanded test fault) }
{
    if test {
        Ok(())
    } else {
        Err(ReadError::Wrong(fault))
    }
}
