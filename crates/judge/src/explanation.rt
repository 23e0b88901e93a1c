//! Why a list of events is illegal, in words.

ghost use Rattle.std.specs.Prelude.{◌≡◌, ◌≢◌, ◌≤◌, [], IfOk, false, length, vec_len};
ghost use Rattle.judge.specs.declared.verdict.Verdict.TheVariants as verdicts;

use crate::breach::Breach;
use crate::judge::Judge;
use crate::reader::Reader;
use crate::state_words::Words;
use crate::value_words::held_at;
use crate::verdict::{Rule, Verdict};
use hierarchy::{ClassId, Program};
use init_core::{Event, Kind};
use std::alloc::{AllocError, Global};

/// The state of threads and classes after these events, up to the first illegal one.
fn judge_after(
    alloc: Global,
    program: &Program,
    mains: &[ClassId],
    events: &[Event],
) -> Result<Judge, AllocError> {
    let mut judge = Judge::new(alloc, mains)?;
    'events: for event in events {
        if judge.take(alloc, program, event)?.is_some() {
            break;
        }
    }
    Ok(judge)
}

impl Words<'_> {
    /// What a thread is doing, the innermost open class first, and the beginning of what it could do next.
    fn thread_state(&mut self, thread: usize, reader: &Reader) {
        let open = reader.procedures.open_classes();
        'open: for class in open.iter().rev() {
            self.open_class(thread, class);
        }
        if open.is_empty() {
            self.thread(thread);
            self.say(if reader.has_ended() {
                " has ended\n"
            } else {
                " is in main\n"
            });
        }
        self.thread(thread);
        self.say(" could go on with: ");
    }

    /// What else a thread could do next, and the label of the event's class.
    fn other_steps(&mut self, reader: &Reader, event: &Event) {
        self.possible(event.thread(), reader);
        if let Some(class) = event.class() {
            self.label_line(class);
        }
    }

    /// Of an event with a wrong value: the right one, and why it is right.
    fn wrong_value(
        &mut self,
        alloc: Global,
        judge: &Judge,
        reader: &Reader,
        event: &Event,
        breach: &Breach,
        kind: &Kind,
    ) {
        let held = held_at(self.program, judge, breach.class, kind);
        if let Some(held) = &held {
            self.right_get(alloc, breach.class, held);
        }
        self.other_steps(reader, event);
        match &held {
            Some(held) => self.holds(breach.class, held),
            None => self.sentence("%c has no such static field", breach),
        }
    }

    /// Of an illegal event: what its thread was doing and could have done, the label of the event's class, and the rule that the
    /// event breaks.
    fn illegal_of(
        &mut self,
        alloc: Global,
        judge: &Judge,
        reader: &Reader,
        event: &Event,
        rule: Rule,
    ) {
        self.thread_state(event.thread(), reader);
        let Ok(kind) = event.kind() else {
            self.lose();
            return;
        };
        let breach = self.breach(reader, event, &kind);
        if rule == Rule::Value {
            self.wrong_value(alloc, judge, reader, event, &breach, &kind);
        } else {
            self.right_step(&breach);
            self.other_steps(reader, event);
            self.asked_by_editions(&breach);
            self.broken(&breach, rule);
        }
    }

    /// Of an illegal event: what it is, and all else.
    fn illegal_event(&mut self, alloc: Global, judge: &Judge, event: &Event, rule: Rule)
        ensures { self.new.text.is_lost ≡ false → 1 ≤ length self.new.text.text }
    {
        self.event(alloc, event);
        let thread = event.thread();
        match judge.readers.of_threads.get(thread) {
            Some(reader) => self.illegal_of(alloc, judge, reader, event, rule),
            None => {
                self.say("there is a thread for each main class, but no thread ");
                self.thread(thread);
            }
        }
        self.say("\n");
    }

    /// Of a list that ends too early: each thread that has not ended what it began.
    fn unfinished(&mut self, judge: &Judge)
        ensures { self.new.text.is_lost ≡ false → 1 ≤ length self.new.text.text }
    {
        self.say("the trace ends there\n");
        'readers: for (thread, reader) in judge.readers.of_threads.iter().enumerate() {
            if !reader.procedures.may_stop() {
                self.thread_state(thread, reader);
                self.possible(thread, reader);
            }
        }
        'unended: for (thread, reader) in judge.readers.of_threads.iter().enumerate() {
            if !reader.procedures.may_stop() {
                self.unended(thread, reader);
            }
        }
        self.say("and what a thread begins it completes or fails: ");
        self.edition();
        self.say(" 12.4.2 steps 7, 10 and 12\n");
    }

    /// Which class a thread has begun first of those that it hasn't ended.
    fn unended(&mut self, thread: usize, reader: &Reader) {
        if let [outermost, ..] = reader.procedures.open_classes() {
            self.thread(thread);
            self.of_class(" has begun ", outermost.class);
            self.say(", ");
        }
    }
}

/// Says in plain lines why a list of events is illegal, where this is the verdict on it; nothing where it is legal.
///
/// Of an illegal event: the event; what its thread was doing, the innermost open class first, with the numbers of the events
/// at which it began each; what it could have done instead, first the step that would have been right; the label of the event's class, and
/// since which event; where the event is one that the other edition of JVMS asks for, what each of the two asks for; and last the rule
/// that the event breaks, with its step of JLS 12.4.2.
/// Where the list ends too early: the same of each thread that hasn't ended what it began, and whom it waits for.
///
/// An `Err` means out of memory.
pub fn explain(
    alloc: Global,
    program: &Program,
    mains: &[ClassId],
    events: &[Event],
    verdict: Verdict,
) -> Result<Vec<u8>, AllocError>
    ensures none { IfOk result (λ text. verdict ≡ verdicts.Legal → text.items ≡ []) }
    ensures some { IfOk result (λ text. verdict ≢ verdicts.Legal → 1 ≤ vec_len text) }
{
    let Verdict::IllegalAt(number, rule) = verdict else {
        return Ok(Vec::new(alloc));
    };
    let before = events.get(..number).unwrap_or(events);
    let judge = judge_after(alloc, program, mains, before)?;
    let mut words = Words::new(alloc, program, before);
    match events.get(number) {
        Some(event) => words.illegal_event(alloc, &judge, event, rule),
        None => words.unfinished(&judge),
    }
    words.into_text()
}
