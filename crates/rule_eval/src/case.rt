//! What is known while a connection is judged; `evaluation`, `scan` and `measures` read it.

use crate::{Samples, Slots};
use rule_model::Setup;

/// A connection, the setup whose rules judge it, and what its slots track so far.
#[derive(Clone, Copy)]
pub(crate) struct Case<'a> {
    pub setup: &'a Setup,
    pub samples: Samples,
    pub slots: Slots,
}
