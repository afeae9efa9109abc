//! An evaluation of the rules, as far as its answers have come; `admit_core::Conn` asks it for wants, and tells it answers.
ghost use Rattle.std.specs.Prelude.{◌≡◌, ◌≤◌, ◌+◌, ◌-◌, ◌==◌, true, false, List, [], ◌∷◌, ◌++◌, IfOk, IsOk, is_some, unwrap_or};
ghost use Rattle.rule_model.specs.declared.sections.Setup.{Setup};
ghost use Rattle.rule_eval.specs.declared.wants.Samples.{Samples};
ghost use Rattle.rule_eval.specs.declared.wants.Answer.{Answer};
ghost use Rattle.rule_eval.specs.Course.{criterion_end, is_asked, is_ready, is_requested, point_course, question_want, request_want, rule_end, truth};
ghost use Rattle.rule_eval.specs.Memory.{kind_takes_memory, want_takes_memory};
ghost use Rattle.rule_eval.specs.Left.{is_done, place_left, point_left, rules_size};
ghost use Rattle.rule_eval.specs.Tables.{key_of, kind_of};
ghost use Rattle.rule_eval.specs.Asked.{asked_by};
ghost use Rattle.rule_eval.specs.Tracking.{is_free, is_tracking, names_table};
ghost use Rattle.rule_eval.specs.Verdict.{slots_after, unless_negated};

use crate::case::Case;
use crate::questions::{Question, Request, answers_question, answers_request, slots_after};
use crate::readings::truth;
use crate::scan::{Place, Point, Scan, after_criterion, after_rule, scan_rules};
use crate::tables::key_of;
use crate::{Answer, Asked, Samples, Slots, Verdict, Want};
use base_sequence::NoMemory;
use rule_model::{KeyExpression, Rule, Setup};
use std::alloc::Global;
use stick_key::StickKey;

/// The key of a question that can be asked.
fn make_key(
    alloc: Global,
    case: &Case<'_>,
    expression: &KeyExpression,
    table: u32,
) -> Result<StickKey, NoMemory>
    requires { is_some (key_of case.now.setup.now case.now.samples expression.now table) ≡ true }
    ensures key { IfOk result (λ key. key ≡ unwrap_or (key_of case.now.setup.now case.now.samples expression.now table) []) }
    ensures memory { kind_takes_memory (kind_of case.now.setup.now table) ≡ false → IsOk result }
{
    match key_of(alloc, case.setup, case.samples, expression, table) {
        Ok(Some(key)) => Ok(key),
        Ok(None) => unreachable!(),
        Err(refused) => Err(refused),
    }
}

/// The want of a question that can be asked.
#[tactic(auto, unfolding(crate::specs::Course::question_want, crate::specs::Course::is_asked))]
fn question_want(alloc: Global, case: &Case<'_>, question: Question) -> Result<Want, NoMemory>
    requires { is_asked case.now.setup.now case.now.samples case.now.slots question ≡ true }
    ensures want { IfOk result (λ want. want ≡ question_want case.now.setup.now case.now.samples question) }
    ensures memory { want_takes_memory case.now.setup.now (question_want case.now.setup.now case.now.samples question) ≡ false → IsOk result }
{
    match question {
        Question::Get { table } => {
            let key = make_key(alloc, case, &KeyExpression::Source, table)?;
            Ok(Want::Get { table, key })
        }
        Question::Look { slot } => Ok(Want::Look { slot }),
        Question::Count { slot, act } => Ok(Want::Count { slot, act }),
    }
}

/// The want of a request that can be asked.
#[tactic(auto, unfolding(crate::specs::Course::request_want, crate::specs::Course::is_requested))]
fn request_want(alloc: Global, case: &Case<'_>, request: Request<'_>) -> Result<Want, NoMemory>
    requires { is_requested case.now.setup.now case.now.samples case.now.slots request ≡ true }
    ensures want { IfOk result (λ want. want ≡ request_want case.now.setup.now case.now.samples request.entry) }
    ensures memory { want_takes_memory case.now.setup.now (request_want case.now.setup.now case.now.samples request.entry) ≡ false → IsOk result }
{
    match request {
        Request::Track { slot, table, key } => {
            let key = make_key(alloc, case, key, table)?;
            Ok(Want::Track { slot, table, key })
        }
        Request::Count { slot, act } => Ok(Want::Count { slot, act }),
    }
}

/// Where an evaluation waits after the answer for a criterion.
fn after_place<'a>(
    case: &Case<'_>,
    place: Place<'a>,
    rule: &'a Rule,
    rules: &'a [Rule],
    answer: &Answer,
) -> Point<'a>
    ensures ready { is_ready case.now.setup.now case.now.samples case.now.slots result ≡ true }
    ensures course { (answers : List Answer) → point_course case.now.setup.now case.now.samples case.now.slots result answers
        ≡ criterion_end case.now.setup.now case.now.samples case.now.slots place.entry
        (λ holds. rule_end case.now.setup.now case.now.samples case.now.slots rule.now.action rules.now (unless_negated rule.now.unless holds))
        (truth place.entry.criterion.now answer.now) answers }
    ensures left { point_left result ≤ place_left place.entry + (1 + rules_size rules.now) }
{
    let holds = truth(place.criterion, answer);
    match after_criterion(case, place, holds) {
        Scan::Asks(question, place) => Point::Condition {
            question,
            place,
            rule,
            rules,
        },
        Scan::Is(holds) => after_rule(case, holds != rule.unless, &rule.action, rules),
    }
}

/// An evaluation of the rules of a setup for one connection.
#[derive(Drop)]
pub struct Eval<'a> {
    case: Case<'a>,
    point: Point<'a>,
    ghost ready: { is_ready case.setup.now case.samples case.slots point ≡ true },
}

impl<'a> Eval<'a> {
    ghost use Rattle.rule_eval.specs.Slots.{no_slots};
    ghost use Rattle.rule_eval.specs.Verdict.{next};
    ghost use Rattle.rule_eval.specs.Eval.{left, remaining, setup_of, slots_in, Stands};

    /// An evaluation that has no answer yet. This takes no memory.
    #[tactic(auto, unfolding(crate::specs::Eval::left, crate::specs::Eval::remaining, crate::specs::Eval::setup_of, crate::specs::Eval::slots_in))]
    #[inline(always)]
    pub fn new(setup: &'a Setup, samples: Samples) -> Self
        ensures stands { Stands result setup.now samples [] }
        ensures slots { slots_in result ≡ no_slots }
        ensures left { left result ≤ rules_size setup.now.rules }
    {
        let case = Case {
            setup,
            samples,
            slots: Slots::new(),
        };
        let point = scan_rules(&case, setup.rules.as_slice());
        Eval { case, point }
    }

    /// The setup whose rules it goes by.
    #[tactic(auto, unfolding(crate::specs::Eval::setup_of))]
    pub fn setup(&self) -> &'a Setup
        ensures { result.now ≡ setup_of self.now }
    {
        self.case.setup
    }

    /// How many shards each table of its setup has.
    #[tactic(auto, unfolding(crate::specs::Eval::setup_of))]
    pub fn shards(&self) -> u32
        ensures { result ≡ (setup_of self.now).shards }
    {
        self.case.setup.shards
    }

    /// What is wanted next, or the verdict. Only a key that is a text takes memory.
    pub fn want(&self, alloc: Global) -> Result<Want, NoMemory>
        ensures wanted { IfOk result (λ want. want ≡ remaining self.now []) }
        ensures next { (setup : Setup) (samples : Samples) (answers : List Answer) →
            Stands self.now setup samples answers → IfOk result (λ want. want ≡ next setup samples answers) }
        ensures memory { want_takes_memory (setup_of self.now) (remaining self.now []) ≡ false → IsOk result }

        // What is wanted keeps to the tables of the setup and to what the slots track.
        ensures table { names_table (setup_of self.now) (remaining self.now []) ≡ true }
        ensures free { is_free (slots_in self.now) (remaining self.now []) ≡ true }
        ensures tracks { is_tracking (slots_in self.now) (remaining self.now []) ≡ true }

        ensures left { is_done (remaining self.now []) ≡ (left self.now == 0) }
    {
        self.wanted(alloc)
    }

    /// What kind of want is next, apart from its key. This takes no memory.
    pub fn asks(&self) -> Asked
        ensures asked { result ≡ asked_by (remaining self.now []) }
        ensures free { is_free (slots_in self.now) (remaining self.now []) ≡ true }
        ensures left { is_done (remaining self.now []) ≡ (left self.now == 0) }
    {
        self.asked()
    }

    /// Takes the answer to what is wanted: one of another kind makes the connection rejected. Behind the verdict no
    /// answer changes anything. This takes no memory.
    pub fn take(&mut self, answer: Answer)
        ensures stands { (setup : Setup) (samples : Samples) (answers : List Answer) →
            Stands self.old setup samples answers → Stands self.new setup samples (answers ++ answer ∷ []) }
        ensures slots { slots_in self.new ≡ slots_after (slots_in self.old) (remaining self.old []) answer }
        ensures left { left self.new ≤ left self.old - 1 }
    {
        self.hear(&answer);
    }

    /// Hears the answer to what is wanted, as `take` does, and leaves it to the caller. This takes no memory.
    pub fn hear(&mut self, answer: &Answer)
        ensures stands { (setup : Setup) (samples : Samples) (answers : List Answer) →
            Stands self.old setup samples answers → Stands self.new setup samples (answers ++ answer.now ∷ []) }
        ensures slots { slots_in self.new ≡ slots_after (slots_in self.old) (remaining self.old []) answer.now }
        ensures left { left self.new ≤ left self.old - 1 }
    {
        self.advance(answer);
    }

    #[tactic(auto, unfolding(crate::specs::Eval::left, crate::specs::Eval::remaining, crate::specs::Eval::setup_of, crate::specs::Eval::slots_in, crate::specs::Course::question_want, crate::specs::Course::is_asked, crate::specs::Course::request_want, crate::specs::Course::is_requested))]
    fn wanted(&self, alloc: Global) -> Result<Want, NoMemory>
        ensures wanted { IfOk result (λ want. want ≡ remaining self.now []) }
        ensures memory { want_takes_memory (setup_of self.now) (remaining self.now []) ≡ false → IsOk result }
        ensures left { is_done (remaining self.now []) ≡ (left self.now == 0) }
    {
        match self.point {
            Point::Condition { question, .. } => question_want(alloc, &self.case, question),
            Point::Action { request, .. } => request_want(alloc, &self.case, request),
            Point::Done(verdict) => Ok(Want::Done(verdict)),
        }
    }

    #[tactic(auto, using(crate::proofs::Ready::question_event), unfolding(crate::specs::Eval::remaining, crate::specs::Course::request_want))]
    fn asked(&self) -> Asked
        ensures { result ≡ asked_by (remaining self.now []) }
    {
        match self.point {
            Point::Condition { .. } => Asked::Event,
            Point::Action { request, .. } => match request {
                Request::Track { slot, table, .. } => Asked::Reference { slot, table },
                Request::Count { .. } => Asked::Event,
            },
            Point::Done(verdict) => Asked::Decided(verdict),
        }
    }

    #[tactic(auto, unfolding(crate::specs::Eval::left, crate::specs::Eval::remaining, crate::specs::Eval::setup_of, crate::specs::Eval::slots_in))]
    fn advance(&mut self, answer: &Answer)
        ensures setup { setup_of self.new ≡ setup_of self.old }
        ensures course { (more : List Answer) → remaining self.new more ≡ remaining self.old (answer.now ∷ more) }
        ensures slots { slots_in self.new ≡ slots_after (slots_in self.old) (remaining self.old []) answer.now }
        ensures left { left self.new ≤ left self.old - 1 }
    {
        match self.point {
            Point::Condition {
                question,
                place,
                rule,
                rules,
            } => {
                if !answers_question(question, answer) {
                    self.point = Point::Done(Verdict::Reject);
                    return;
                }
                self.point = after_place(&self.case, place, rule, rules, answer);
            }
            Point::Action { request, rules } => {
                if !answers_request(request, answer) {
                    self.point = Point::Done(Verdict::Reject);
                    return;
                }
                self.case.slots = slots_after(self.case.slots, request, answer);
                self.point = scan_rules(&self.case, rules);
            }
            Point::Done(_) => {}
        }
    }
}
