//! Bodies that do one of each: they use a class, write and read its static field, print, wait, throw.

ghost use Rattle.std.specs.Prelude.{◌≡◌, pos, IsTrue, IfSome, Option};
ghost use Rattle.std.specs.Str.{is_utf8};
ghost use Rattle.hierarchy.specs.declared.value.Value.TheVariants.{Int};
ghost use Rattle.bodies.specs.Doing.{MayDo};
ghost use Rattle.bodies.specs.declared.does.Does.TheVariants.{Gets, Puts};
ghost use Rattle.library_tests.specs.AnyBodies.{any_limits};
ghost use Rattle.library_tests.specs.declared.scripted.Scripted.{Scripted as ScriptedFacts};

use crate::programs::{Question, Row};
use crate::runs::are_of_files;
use bodies::{Bodies, Does, Limit, Limits, Report, ThreadOutcome, Touched};
use descriptors::BaseType;
use frames::{Replaced, replacement};
use guest_threads::{NoGate, run_threads};
use hierarchy::{BuiltIn, ClassId, Program, Value};
use init_core::{Completed, Outcome};
use replayer::run_ordered;
use sequence::Text;
use statics::Bank;
use std::alloc::{AllocError, Global};
use std::sync::Wait;
use std::thread::Threads;

/// The class that is used.
const USED: ClassId = ClassId { number: 0 };

/// The value that is written.
const WRITTEN: Value = Value::Int(7);

/// Each initializer returns at once, or throws, and `main` goes on from step to step.
#[derive(Drop)]
pub(crate) struct Scripted {
    /// Whether initializers throw.
    throws: bool,
    /// Whether what `main` touches is held by another thread for ever.
    is_stuck: bool,
    /// Whether it has come to that.
    is_held: bool,
    /// The initializers that run.
    depth: usize,
    /// The steps that `main` has done.
    done: usize,
    /// What was read.
    read: Option<Value>,
}

/// A class whose first static field may be used: an int without a constant.
fn ready(alloc: Global, program: &Program, last: Option<Completed>) -> Option<ClassId>
    ensures gets { IfSome result (λ c. (z : ScriptedFacts) → MayDo program.now any_limits last (Gets c 0) z) }
    ensures puts { IfSome result (λ c. (z : ScriptedFacts) → MayDo program.now any_limits last (Puts c 0 (Int (pos 7))) z) }
{
    let Completed {
        class,
        outcome: Outcome::Normal,
    } = last?
    else {
        return None;
    };
    if class.number >= program.len() {
        return None;
    }
    let Ok(bank) = Bank::prepared(alloc, program, class) else {
        return None;
    };
    if bank.len() == 0 {
        return None;
    }
    let field = bank.field(0);
    if field.constant.is_none() && field.base == Some(BaseType::Int) {
        Some(class)
    } else {
        None
    }
}

/// The use of a class.
fn ask(program: &Program, _last: Option<Completed>) -> Does
    ensures { (z : ScriptedFacts) → MayDo program.now any_limits _last result z }
{
    if USED.number < program.len() {
        Does::Asks(USED)
    } else {
        Does::Over(None)
    }
}

/// The write of a field, or its read.
fn use_field(alloc: Global, program: &Program, last: Option<Completed>, is_write: bool) -> Does
    ensures { (z : ScriptedFacts) → MayDo program.now any_limits last result z }
{
    match ready(alloc, program, last) {
        Some(class) if is_write => Does::Puts {
            class,
            field: 0,
            value: WRITTEN,
        },
        Some(class) => Does::Gets { class, field: 0 },
        None => Does::Over(None),
    }
}

/// The print of a text.
fn print(alloc: Global, _program: &Program, _last: Option<Completed>, text: &[u8]) -> Does
    requires { IsTrue (is_utf8 text.now) }
    ensures { (z : ScriptedFacts) → MayDo _program.now any_limits _last result z }
{
    match Text::copied(alloc, text) {
        Ok(text) => Does::Prints(text),
        Err(_) => Does::Ended(Limit::Memory),
    }
}

/// The end of an initializer.
#[tactic(auto, using(hierarchy::specs::Subclasses::itself))]
fn end(program: &Program, _last: Option<Completed>, throws: bool) -> Does
    ensures { (z : ScriptedFacts) → MayDo program.now any_limits _last result z }
{
    if throws {
        return Does::Over(Some(program.built_in(BuiltIn::Throwable)));
    }
    Does::Over(None)
}

impl Bodies for Scripted {
    type Code = ();

    type Shared = ();

    ghost use Rattle.std.specs.Prelude.{true};
    ghost use Rattle.library_tests.specs.AnyBodies.{any_bodies, may_come_to_it};

    ghost is_code = { λ code p. Unit {0} };

    ghost making = { λ p. any_bodies (λ s. s.is_held ≡ true) };

    fn start(&mut self, _alloc: Global, _program: &Program, _code: &(), _class: ClassId) {
        self.depth = self.depth.saturating_add(1);
    }

    fn enter(&mut self, _alloc: Global, _program: &Program, _code: &(), _class: ClassId) {
        self.done = 0;
    }

    fn next(
        &mut self,
        alloc: Global,
        program: &Program,
        _code: &(),
        last: Option<Completed>,
    ) -> Does {
        if self.depth > 0 {
            self.depth -= 1;
            return end(program, last, self.throws);
        }
        self.done = self.done.saturating_add(1);
        match self.done {
            1 | 3 => ask(program, last),
            2 => use_field(alloc, program, last, true),
            4 => use_field(alloc, program, last, false),
            5 => {
                self.is_held = self.is_stuck;
                Does::Touches
            }
            6 if self.read == Some(WRITTEN) => print(alloc, program, last, b"7"),
            _ => Does::Over(None),
        }
    }

    fn touch(
        &mut self,
        _alloc: Global,
        _program: &Program,
        _code: &(),
        _shared: &mut (),
    ) -> Result<Touched, AllocError> {
        Ok(if self.is_held {
            Touched::Held
        } else {
            Touched::Done
        })
    }

    fn waits(&self, _program: &Program, _shared: &()) -> bool {
        self.is_held
    }

    fn get(&mut self, _program: &Program, value: Value) {
        self.read = Some(value);
    }

    fn leave(&mut self, _program: &Program) {
        self.depth = self.depth.saturating_sub(1);
    }

    fn replace(
        &mut self,
        _alloc: Global,
        program: &Program,
        _shared: &mut (),
        thrown: ClassId,
    ) -> Result<ClassId, AllocError> {
        Ok(match replacement(program, thrown) {
            Replaced::Same => thrown,
            Replaced::Wrapped => program.built_in(BuiltIn::ExceptionInInitializerError),
        })
    }

    fn end(&mut self, _program: &Program, _shared: &mut ()) {}

    ghost waits_on = { λ p s u z h last again d touches waits does. tt };

    ghost limits_stay = { may_come_to_it };
}

/// A run of a main class by such bodies, and what comes of it.
pub(crate) struct Script {
    /// Whether it is one in order.
    ordered: bool,
    /// Whether initializers throw.
    throws: bool,
    /// How the only thread ends.
    outcome: ThreadOutcome,
    /// How many events there are.
    events: usize,
    output: &'static [u8],
}

const MAIN: ClassId = ClassId { number: 1 };

/// What step 11 leaves of a throwable that is no Error: the built-in classes are numbered after the two files' classes.
const WRAPPED: ClassId = ClassId {
    number: 2 + BuiltIn::ExceptionInInitializerError as usize,
};

/// The run of the main class by such bodies.
fn run<R: Threads + Wait + Sync>(
    rt: &R,
    alloc: Global,
    program: &Program,
    script: &Script,
) -> Option<Report> {
    let mains = [MAIN];
    if !are_of_files(program, &mains) {
        return None;
    }
    let mut bodies = Vec::new(alloc);
    let body = Scripted {
        throws: script.throws,
        is_stuck: script.ordered,
        is_held: false,
        depth: 0,
        done: 0,
        read: None,
    };
    bodies.push(body).ok()?;
    if script.ordered {
        run_ordered(alloc, program, &(), &mains, &[], bodies, ()).ok()
    } else {
        run_threads(
            rt,
            alloc,
            program,
            &(),
            &mains,
            bodies,
            (),
            Limits::USUAL,
            &NoGate,
        )
        .ok()
    }
}

/// Whether the run comes to what it must.
pub(crate) fn is_scripted<R: Threads + Wait + Sync>(
    rt: &R,
    alloc: Global,
    program: &Program,
    script: &Script,
) -> bool {
    match run(rt, alloc, program, script) {
        Some(report) => {
            report.outcomes.as_slice() == [script.outcome].as_slice()
                && report.events.len() == script.events
                && report.output.as_slice() == script.output
        }
        None => false,
    }
}

const FILES: &[&[u8]] = &[b".class A\n.field static n I", b".class B"];

pub(crate) const SCRIPTS: &[Row] = &[
    // Main writes, reads and prints.
    Row {
        files: FILES,
        question: Question::Scripted(Script {
            ordered: false,
            throws: false,
            outcome: ThreadOutcome::Normal,
            events: 10,
            output: b"7",
        }),
    },
    // What an initializer throws is replaced.
    Row {
        files: FILES,
        question: Question::Scripted(Script {
            ordered: false,
            throws: true,
            outcome: ThreadOutcome::Abrupt(WRAPPED),
            events: 3,
            output: b"",
        }),
    },
    // In order what waits gives up.
    Row {
        files: FILES,
        question: Question::Scripted(Script {
            ordered: true,
            throws: false,
            outcome: ThreadOutcome::Ended(Limit::Patience),
            events: 9,
            output: b"",
        }),
    },
];
