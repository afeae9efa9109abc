//! A connection, from its first rule to its last reference; `admit_port` asks it for wants, and tell it
//! answers.
ghost use Rattle.std.specs.Prelude.{◌≡◌, ◌≤◌, ◌+◌, Some, None, true, false, is_some, is_none, slice_get, IfOk, IsOk, OnErr};
ghost use Rattle.std.specs.Option.{option_map};
ghost use Rattle.rule_eval.specs.Eval.{slots_in};
ghost use Rattle.rule_eval.specs.declared.wants.Answer.TheVariants.{Released};
ghost use Rattle.rule_model.specs.declared.actions.Slot.TheVariants.{Sc0, Sc1, Sc2};
ghost use Rattle.admit_core.specs.Connection.{answers_need, arrived, closed, closed_of, closing, counting, gave, gave_of, is_asking, is_event, is_judged, is_release, leaving, need_takes_memory, refused, refused_of, released_of, sessions, took, took_of, turned, turned_of, wants_held};
ghost use Rattle.admit_core.specs.Held.{held_at, holding, is_free_for, tables_of};
ghost use Rattle.admit_core.specs.Left.{is_rest, is_still};
ghost use Rattle.admit_core.specs.Naming.{names_held, names_table_of};
ghost use Rattle.admit_core.specs.Receiving.{HasPlace, received};
ghost use Rattle.admit_core.specs.declared.need.Need.TheVariants.{Rest, Turn};

use crate::held::Held;
use crate::{Need, Phase};
use base_sequence::NoMemory;
use rule_eval::{Answer, Asked, Eval, Samples, Verdict, Want};
use rule_model::{Setup, Slot};
use std::alloc::Global;
use stored_data::Act;

/// No reference: there is nothing to put away.
fn nothing_came<R>(reference: Option<R>)
    requires { reference ≡ None }
{
    match reference {
        None => {}
        Some(_reference) => unreachable!(),
    }
}

/// Puts the reference that the rules asked for into its slot.
fn receive<R>(held: &mut Held<R>, asked: Asked, reference: Option<R>)
    requires { HasPlace held.old asked reference }
    ensures { held.new ≡ received held.old asked reference }
{
    let Some(reference) = reference else {
        return;
    };
    match asked {
        Asked::Reference { slot, table } => held.put(slot, table, reference),
        _ => unreachable!(),
    }
}

/// A connection that is judged by the rules of a setup, with up to three references of any kind. It asks for one event
/// at a time, and whoever drives it makes the event, and tells it the answer or that it was refused.
#[derive(Drop)]
pub struct Conn<'a, R> {
    eval: Eval<'a>,
    phase: Phase,
    /// Once it is closed, the bytes that came in and went out.
    bytes: Option<(u64, u64)>,
    /// How many acts were counted since the verdict, or since it was closed.
    counted: u32,
    held: Held<R>,
    /// The slot and the table of a reference that was handed out to be released.
    given: Option<(Slot, u32)>,
    ghost not_given: { is_judged phase ≡ true → is_none given ≡ true },
    ghost not_held: { is_free_for held given ≡ true },
    ghost same_tables: { is_judged phase ≡ true → tables_of held ≡ slots_in eval },
}

#[tactic(auto, unfolding(crate::specs::Connection::need_of, crate::specs::Connection::took_of, crate::specs::Connection::refused_of, crate::specs::Conn::progress_of, crate::specs::Conn::wanted, crate::specs::Conn::judged_by, crate::specs::Conn::Judges, crate::specs::Held::tables_of, crate::specs::Conn::rules_left))]
impl<'a, R> Conn<'a, R> {
    ghost use Rattle.admit_core.specs.Connection.{Connection, need};
    ghost use Rattle.admit_core.specs.Conn.{judged_by, needed, progress_of, rules_left, Stands, wanted};

    /// A connection that has just come. This takes no memory.
    #[inline(always)]
    pub fn new(setup: &'a Setup, samples: Samples) -> Self
        ensures stands { Stands result (arrived setup.now samples) }
        ensures given { is_some (progress_of result).given ≡ false }
    {
        Conn {
            eval: Eval::new(setup, samples),
            phase: Phase::New,
            bytes: None,
            counted: 0,
            held: Held::new(),
            given: None,
        }
    }

    /// The setup that judges it, from its first rule to its end.
    pub fn setup(&self) -> &'a Setup
        ensures { result.now ≡ judged_by self.now }
    {
        self.eval.setup()
    }

    /// How many shards each table of its setup has.
    pub fn shards(&self) -> u32
        ensures { result ≡ (judged_by self.now).shards }
    {
        self.eval.shards()
    }

    /// How far it is.
    pub fn phase(&self) -> Phase
        ensures { result ≡ (progress_of self.now).phase }
    {
        let Conn { phase, .. } = self;
        *phase
    }

    /// Whether it wants nothing but to be closed, or nothing at all.
    pub fn is_still(&self) -> bool
        requires { is_some (progress_of self.now).given ≡ false }
        ensures { result ≡ is_still (needed self.now) }
    {
        match self.phase {
            Phase::Admitted => self.bytes.is_none(),
            Phase::Ended => true,
            _ => false,
        }
    }

    /// Whether it wants nothing but to be closed.
    pub fn rests(&self) -> bool
        requires { is_some (progress_of self.now).given ≡ false }
        ensures { result ≡ is_rest (needed self.now) }
    {
        self.phase == Phase::Admitted && self.bytes.is_none()
    }

    /// What it wants next. Only a key that is a text takes memory: after the verdict of its rules nothing does. Where
    /// memory was wanted, it is told so by `refused`.
    pub fn want(&self, alloc: Global) -> Result<Need, NoMemory>
        ensures needed { IfOk result (λ wanted. wanted ≡ needed self.now) }
        ensures need { (connection : Connection R) → Stands self.now connection → IfOk result (λ wanted. wanted ≡ need connection) }
        ensures memory { need_takes_memory (judged_by self.now) (needed self.now) ≡ false → IsOk result }

        // What it names is there: its table, the reference that it needs, and a free slot for one that comes.
        ensures table { IfOk result (λ wanted. names_table_of (judged_by self.now) wanted ≡ true) }
        ensures held { IfOk result (λ wanted. is_some (progress_of self.now).given ≡ false → names_held (progress_of self.now).held wanted ≡ true) }
        ensures free { IfOk result (λ wanted. wants_held (progress_of self.now).held wanted ≡ false) }
        ensures given { is_free_for (progress_of self.now).held (progress_of self.now).given ≡ true }

        // Where there was no memory for what it wants, that is an event, of which no reference was handed out.
        ensures event { OnErr result (is_event (needed self.now) ≡ true) }
        ensures not_given { OnErr result (is_some (progress_of self.now).given ≡ false) }
    {
        self.next(alloc)
    }

    /// What it wants next.
    fn next(&self, alloc: Global) -> Result<Need, NoMemory>
        ensures needed { IfOk result (λ wanted. wanted ≡ needed self.now) }
        ensures memory { need_takes_memory (judged_by self.now) (needed self.now) ≡ false → IsOk result }
        ensures event { OnErr result (is_event (needed self.now) ≡ true) }
        ensures not_given { OnErr result (is_some (progress_of self.now).given ≡ false) }
    {
        if let Some((slot, _)) = self.given {
            return Ok(Need::Release { slot });
        }
        match self.phase {
            Phase::New | Phase::Judging => self.judging(alloc),
            Phase::Admitted => Ok(self.closing()),
            Phase::Rejected => Ok(self.leaving()),
            Phase::Ended => Ok(Need::Finished),
        }
    }

    /// What it wants while it is judged.
    fn judging(&self, alloc: Global) -> Result<Need, NoMemory>
        requires { is_judged (progress_of self.now).phase ≡ true }
        ensures needed { IfOk result (λ wanted. wanted ≡ needed self.now) }
        ensures memory { need_takes_memory (judged_by self.now) (needed self.now) ≡ false → IsOk result }
        ensures event { OnErr result (is_event (needed self.now) ≡ true) }
    {
        match self.eval.want(alloc)? {
            Want::Get { table, key } => Ok(Need::Get { table, key }),
            Want::Track { slot, table, key } => Ok(Need::Track { slot, table, key }),
            Want::Look { slot } => Ok(Need::Look { slot }),
            Want::Count { slot, act } => Ok(Need::Count { slot, act }),
            Want::Done(Verdict::Accept) => Ok(self.greeting()),
            Want::Done(Verdict::Reject) => Ok(Need::Turn),
        }
    }

    /// What it wants once the rules have accepted it: its sessions are counted.
    fn greeting(&self) -> Need
        ensures { result ≡ counting (slice_get (sessions (holding (progress_of self.now).held)) (progress_of self.now).counted) Turn }
    {
        match self.held.nth(self.counted) {
            Some(slot) => Need::Count {
                slot,
                act: Act::Session,
            },
            None => Need::Turn,
        }
    }

    /// What it wants while it is admitted: nothing until it is closed, then its bytes are counted.
    fn closing(&self) -> Need
        ensures { result ≡ closing (progress_of self.now).bytes (progress_of self.now) }
    {
        let Some((bytes_in, bytes_out)) = self.bytes else {
            return Need::Rest;
        };
        let Some(slot) = self.held.nth(self.counted / 2) else {
            return self.leaving();
        };
        if self.counted % 2 == 0 {
            return Need::Count {
                slot,
                act: Act::BytesIn(bytes_in),
            };
        }
        Need::Count {
            slot,
            act: Act::BytesOut(bytes_out),
        }
    }

    /// What it wants while its references go back.
    fn leaving(&self) -> Need
        ensures { result ≡ leaving (holding (progress_of self.now).held) }
    {
        match self.held.nth(0) {
            Some(slot) => Need::Release { slot },
            None => Need::Turn,
        }
    }

    /// Takes the answer to what it wants, and with `Tracked` the reference that came. The answer to a release comes
    /// once its reference was handed out by `give`. This takes no memory.
    pub fn take(&mut self, answer: Answer, reference: Option<R>)
        requires answers { answers_need (needed self.old) answer reference ≡ true }
        requires given { answer ≡ Released → is_some (progress_of self.old).given ≡ true }
        ensures progress { progress_of self.new ≡ took_of (wanted self.old) (progress_of self.old) reference }
        ensures given { is_some (progress_of self.new).given ≡ false }
        ensures asked { is_asking (wanted self.old) (progress_of self.old) ≡ true → rules_left self.new + 1 ≤ rules_left self.old }
        ensures less { rules_left self.new ≤ rules_left self.old }
        ensures stands { (connection : Connection R) → Stands self.old connection → Stands self.new (took connection answer reference) }
    {
        self.hear(&answer, reference);
    }

    /// The same, of an answer that stays where it is: none of its rows is moved or dropped on the way.
    fn hear(&mut self, answer: &Answer, reference: Option<R>)
        requires answers { answers_need (needed self.old) answer.now reference ≡ true }
        requires given { answer.now ≡ Released → is_some (progress_of self.old).given ≡ true }
        ensures progress { progress_of self.new ≡ took_of (wanted self.old) (progress_of self.old) reference }
        ensures given { is_some (progress_of self.new).given ≡ false }
        ensures asked { is_asking (wanted self.old) (progress_of self.old) ≡ true → rules_left self.new + 1 ≤ rules_left self.old }
        ensures less { rules_left self.new ≤ rules_left self.old }
        ensures stands { (connection : Connection R) → Stands self.old connection → Stands self.new (took connection answer.now reference) }
    {
        if self.given.is_some() {
            nothing_came(reference);
            self.given = None;
            return;
        }
        if !self.phase.is_judged() {
            nothing_came(reference);
            self.counted += 1;
            return;
        }
        let asked = self.eval.asks();
        if let Asked::Decided(_) = asked {
            nothing_came(reference);
            self.counted += 1;
            return;
        }
        receive(&mut self.held, asked, reference);
        self.eval.hear(answer);
        self.phase = Phase::Judging;
    }

    /// What it wants was refused, or there was no memory to say what it wants. Before the verdict of its rules it is
    /// rejected; after it a count is skipped, and a release is wanted again, with the reference that `give` had handed
    /// out. This takes no memory.
    pub fn refused(&mut self, reference: Option<R>)
        requires event { is_event (needed self.old) ≡ true }
        requires given { is_some reference ≡ is_some (progress_of self.old).given }
        ensures progress { progress_of self.new ≡ refused_of (wanted self.old) (progress_of self.old) reference }
        ensures given { is_some (progress_of self.new).given ≡ false }
        ensures rules { rules_left self.new ≡ rules_left self.old }
        ensures stands { (connection : Connection R) → Stands self.old connection → Stands self.new (refused connection reference) }
    {
        let Some(reference) = reference else {
            self.skip();
            return;
        };
        match self.given.take() {
            Some((slot, table)) => self.held.put(slot, table, reference),
            None => unreachable!(),
        }
    }

    /// An event that needs no reference was refused.
    fn skip(&mut self)
        requires event { is_event (needed self.old) ≡ true }
        requires given { is_some (progress_of self.old).given ≡ false }
        ensures progress { progress_of self.new ≡ refused_of (wanted self.old) (progress_of self.old) None }
        ensures eval { self.new.eval ≡ self.old.eval }
    {
        match self.phase {
            Phase::New | Phase::Judging => match self.eval.asks() {
                Asked::Decided(_) => self.counted += 1,
                _ => self.phase = Phase::Rejected,
            },
            Phase::Admitted => {
                if self.held.nth(self.counted / 2).is_some() {
                    self.counted += 1;
                }
            }
            _ => {}
        }
    }

    /// Its next phase, where that is wanted.
    pub fn turn(&mut self)
        requires turn { needed self.old ≡ Turn }
        ensures progress { progress_of self.new ≡ turned_of (wanted self.old) (progress_of self.old) }
        ensures rules { rules_left self.new ≡ rules_left self.old }
        ensures stands { (connection : Connection R) → Stands self.old connection → Stands self.new (turned connection) }
    {
        self.phase = match self.phase {
            Phase::New | Phase::Judging => match self.eval.asks() {
                Asked::Decided(Verdict::Accept) => Phase::Admitted,
                _ => Phase::Rejected,
            },
            _ => Phase::Ended,
        };
    }

    /// It is closed, after so many bytes came in and went out.
    pub fn close(&mut self, bytes_in: u64, bytes_out: u64)
        requires { needed self.old ≡ Rest }
        ensures progress { progress_of self.new ≡ closed_of (progress_of self.old) bytes_in bytes_out }
        ensures rules { rules_left self.new ≡ rules_left self.old }
        ensures stands { (connection : Connection R) → Stands self.old connection → Stands self.new (closed connection bytes_in bytes_out) }
    {
        self.bytes = Some((bytes_in, bytes_out));
        self.counted = 0;
    }

    /// The number of the table and the reference that a slot holds. One that was handed out isn't held.
    pub fn held(&self, slot: Slot) -> Option<(u32, &R)>
        ensures { option_map (λ entry. (entry.0, entry.1.now)) result ≡ held_at (progress_of self.now).held slot }
    {
        self.held.get(slot)
    }

    /// Hands out the reference that is to be released. It comes back by `refused`, or its release is answered.
    pub fn give(&mut self) -> R
        requires release { is_release (needed self.old) ≡ true }
        requires held { is_some (progress_of self.old).given ≡ false }
        ensures reference { released_of (needed self.old) (progress_of self.old) ≡ Some result }
        ensures progress { progress_of self.new ≡ gave_of (needed self.old) (progress_of self.old) }

        // Its release is what is wanted, as before.
        ensures needs { needed self.new ≡ needed self.old }
        ensures given { is_some (progress_of self.new).given ≡ true }

        ensures rules { rules_left self.new ≡ rules_left self.old }
        ensures stands { (connection : Connection R) → Stands self.old connection → Stands self.new (gave connection) }
    {
        let Some(slot) = self.held.nth(0) else {
            unreachable!();
        };
        let (table, reference) = self.held.take(slot);
        self.given = Some((slot, table));
        reference
    }

    /// What it still holds by each slot, with the number of its table.
    #[inline(always)]
    pub fn end(self) -> (Option<(u32, R)>, Option<(u32, R)>, Option<(u32, R)>)
        ensures sc0 { result.0 ≡ held_at (progress_of self.entry).held Sc0 }
        ensures sc1 { result.1 ≡ held_at (progress_of self.entry).held Sc1 }
        ensures sc2 { result.2 ≡ held_at (progress_of self.entry).held Sc2 }
    {
        let Conn {
            eval: _eval,
            phase: _,
            bytes: _,
            counted: _,
            held,
            given: _,
        } = self;
        held.end()
    }
}
