//! Wants whose keys are still to be made; `measures` and `scan` find them so without memory, and `evaluation` reads them.
ghost use Rattle.std.specs.Prelude.{◌≡◌};
ghost use Rattle.rule_model.specs.declared.sections.Setup.{Setup};
ghost use Rattle.rule_eval.specs.declared.wants.Samples.{Samples};
ghost use Rattle.rule_eval.specs.Readings.{is_answer};
ghost use Rattle.rule_eval.specs.Verdict.{slots_after};
ghost use Rattle.rule_eval.specs.Course.{question_want, request_want};

use crate::{Answer, Slots, Verdict};
use rule_model::{KeyExpression, Slot};
use stored_data::Act;

/// What a criterion asks.
#[derive(Clone, Copy)]
pub(crate) enum Question {
    /// What is shown of the connection's source.
    Get { table: u32 },
    Look { slot: Slot },
    Count { slot: Slot, act: Act },
}

/// What is found of a part of a condition: a value that is known at once, or a question whose answer tells it.
#[derive(Clone, Copy)]
pub(crate) enum Found<T> {
    Known(T),
    Asks(Question),
}

/// What an action asks.
#[derive(Clone, Copy)]
pub(crate) enum Request<'a> {
    Track {
        slot: Slot,
        table: u32,
        key: &'a KeyExpression,
    },
    Count {
        slot: Slot,
        act: Act,
    },
}

/// What an action does.
#[derive(Clone, Copy)]
pub(crate) enum Effect<'a> {
    Ends(Verdict),
    Asks(Request<'a>),
    Nothing,
}

/// Whether an answer is of the kind that a question asks for.
#[tactic(auto, unfolding(crate::specs::Course::question_want))]
pub(crate) fn answers_question(question: Question, answer: &Answer) -> bool
    ensures { (setup : Setup) (samples : Samples) → result ≡ is_answer (question_want setup samples question) answer.now }
{
    matches!(
        (question, answer),
        (Question::Get { .. }, Answer::Row(_) | Answer::Absent)
            | (Question::Look { .. }, Answer::Row(_))
            | (Question::Count { .. }, Answer::Value(_))
    )
}

/// Whether an answer is of the kind that a request asks for.
#[tactic(auto, unfolding(crate::specs::Course::request_want))]
pub(crate) fn answers_request(request: Request<'_>, answer: &Answer) -> bool
    ensures { (setup : Setup) (samples : Samples) → result ≡ is_answer (request_want setup samples request.entry) answer.now }
{
    matches!(
        (request, answer),
        (Request::Track { .. }, Answer::Tracked | Answer::Untracked)
            | (Request::Count { .. }, Answer::Value(_))
    )
}

/// The slots after the answer to a request.
#[tactic(auto, unfolding(crate::specs::Course::request_want))]
pub(crate) fn slots_after(slots: Slots, request: Request<'_>, answer: &Answer) -> Slots
    ensures { (setup : Setup) (samples : Samples) → result ≡ slots_after slots (request_want setup samples request.entry) answer.now }
{
    match (request, answer) {
        (Request::Track { slot, table, .. }, Answer::Tracked) => slots.with(slot, table),
        _ => slots,
    }
}
