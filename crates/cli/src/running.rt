//! From class texts to the run of their main classes.

ghost use Rattle.std.specs.Prelude.{◌≡◌, ◌⊎◌, ◌<◌, ◌≤◌, ◌∷◌, [], None, Some, IfErr, IfOk, IfSome, length, nat_lt, true, vec_len};
ghost use Rattle.std.specs.List.{AllByRecursion};
ghost use Rattle.std.specs.Option.{option_map};
ghost use Rattle.clap.specs.Walk.{texts as texts_of};
ghost use Rattle.code.specs.IsCode.{IsCode};
ghost use Rattle.hierarchy.specs.FirstFault.{LinksAs};
ghost use Rattle.init_core.specs.ProcedureWord.{IsOfFiles};
ghost use Rattle.interpreter.specs.CodeRun.{alone_bodies, interpreter_at_start};
ghost use Rattle.interpreter.specs.Touching.{code_bodies, objects_at_start};
ghost use Rattle.bodies.specs.Sharing.{free_bodies};
ghost use Rattle.bodies.specs.Runs.{AreMains, IsRunOf};
ghost use Rattle.replayer.specs.OrderedRun.{IsOrderedRunOf};
ghost use Rattle.cli.specs.declared.fault.Fault.TheVariants.{Mains, Memory, Threads};
ghost use Rattle.command_line.specs.CommandLine.{run_words_of, text_of};
ghost use Rattle.cli.specs.Files.{IsLinkedFrom, KeepsAllBut};
ghost use Rattle.cli.specs.Orders.{is_of_threads, numbers_of, order_in};
ghost use Rattle.cli.specs.ReadRefusals.{AreUnlinked};
ghost use Rattle.cli.specs.NamedRun.{IsFilesRefusal, IsRunAsked, IsRunRefusal};
ghost use Rattle.cli.specs.Running.{IsLinkRefusal, IsOrderedRunBy, IsRunBy, IsRunOfMains, main_named as class_of_name, mains_in, mains_named as classes_of_names, starts_below, starts_of};

use crate::fault::Fault;
use crate::files::{Named, read_texts};
use crate::orders::fits;
use crate::trace_files::order_for;
use bodies::{Limits, Report};
use code::{Code, resolve};
use command_line::Run;
use guest_threads::{NoGate, RunFault, run_threads};
use hierarchy::{ClassId, Edition, LinkFaultKind, Program, link_as};
use interpreter::{AloneInterpreter, Interpreter, Objects};
use jasmin_text::ClassText;
use replayer::run_ordered;
use std::alloc::{AllocError, Global};
use std::sync::Wait;
use std::thread::Threads;

/// The program of all class texts, in this edition. Being out of memory is reported in its own way.
fn link_texts<'a>(
    alloc: Global,
    texts: Vec<ClassText>,
    edition: Edition,
) -> Result<Program, Fault<'a>>
    ensures linked { IfOk result (LinksAs edition texts.items) }
    ensures refused { IfErr result (IsLinkRefusal texts.items) }
{
    match link_as(alloc, texts, edition) {
        Ok(program) => Ok(program),
        Err(fault) => match fault.kind {
            LinkFaultKind::NoMemory => Err(Fault::Memory),
            _ => Err(Fault::Link(fault)),
        },
    }
}

/// Reads and links the classes of the files, in this edition.
pub(crate) fn link_files<'a, N: Named>(
    alloc: Global,
    files: &[&'a str],
    edition: Edition,
    named: &mut N,
) -> Result<Program, Fault<'a>>
    ensures linked { IfOk result (IsLinkedFrom (N.held named.old) (texts_of files.now) edition) }
    ensures refused { IfErr result (AreUnlinked (N.held named.old) (texts_of files.now)) }
    ensures files { KeepsAllBut None (N.held named.old) (N.held named.new) }
{
    let texts = match read_texts(alloc, named, files) {
        Ok(texts) => texts,
        Err(fault) => return Err(fault),
    };
    link_texts(alloc, texts, edition)
}

/// The class of the files of that name.
fn main_named(program: &Program, name: &[u8]) -> Option<ClassId>
    ensures named { result ≡ class_of_name program.now name.now }
    ensures within { IfSome result (λ main. main.number < length program.now.classes) }
{
    let main = program.class_named(name)?;
    if main.number < program.len() {
        Some(main)
    } else {
        None
    }
}

/// The classes of the files that the names between commas are of, in order; none where a name is of no class of the files,
/// or there are more than 16.
fn mains_named(
    alloc: Global,
    program: &Program,
    names: &[u8],
) -> Result<Option<Vec<ClassId>>, AllocError>
    ensures named { IfOk result (λ mains. option_map (λ classes. classes.items) mains ≡ classes_of_names program.now names.now) }
    ensures mains { IfOk result (λ mains. IfSome mains (λ classes. AreMains program.now classes.items)) }
{
    let mut mains = Vec::new(alloc);
    let mut name = Vec::new(alloc);
    let mut rest = names;
    while let [byte, after @ ..] = rest {
        if *byte == b',' {
            let Some(main) = main_named(program, &name) else {
                return Ok(None);
            };
            mains.push(main)?;
            name.clear();
        } else {
            name.push(*byte)?;
        }
        rest = after;
    }
    let Some(main) = main_named(program, &name) else {
        return Ok(None);
    };
    mains.push(main)?;
    if mains.len() > 16 {
        return Ok(None);
    }
    Ok(Some(mains))
}

/// The main classes that the text of `--mains` names.
pub(crate) fn mains_of<'a>(
    alloc: Global,
    program: &Program,
    mains: Option<&str>,
) -> Result<Vec<ClassId>, Fault<'a>>
    ensures named { IfOk result (λ classes. mains_in program.now (text_of mains.entry) ≡ Some classes.items) }
    ensures mains { IfOk result (λ classes. AreMains program.now classes.items) }
    ensures refused { IfErr result (λ fault. (fault ≡ Memory) ⊎ ((fault ≡ Mains) × (mains_in program.now (text_of mains.entry) ≡ None))) }
{
    let Some(names) = mains else {
        return Err(Fault::Mains);
    };
    match mains_named(alloc, program, names.as_bytes())? {
        Some(classes) => Ok(classes),
        None => Err(Fault::Mains),
    }
}

/// Runs one main class in this order.
fn run_alone<'a>(
    alloc: Global,
    program: &Program,
    code: &Code,
    main: ClassId,
    order: &[usize],
    limits: Limits,
) -> Result<Report, Fault<'a>>
    requires code { IsCode code.now program.now }
    requires file { IsOfFiles program.now main }
    requires order { AllByRecursion (λ t. t < 1) order.now }
    ensures ran { IfOk result (IsOrderedRunOf program.now (alone_bodies program.now) tt (interpreter_at_start 0 limits.steps ∷ []) (main ∷ []) order.now) }
    ensures refused { IfErr result (λ fault. fault ≡ Memory) }
{
    let mut bodies = Vec::new(alloc);
    bodies.push(AloneInterpreter::new(alloc, 0, limits.steps))?;
    let report = run_ordered(alloc, program, code, &[main], order, bodies, ())?;
    Ok(report)
}

/// Runs one main class, which meets no other thread.
fn run_one<'a>(
    alloc: Global,
    program: &Program,
    code: &Code,
    main: ClassId,
    limits: Limits,
) -> Result<Report, Fault<'a>>
    requires code { IsCode code.now program.now }
    requires file { IsOfFiles program.now main }
    ensures ran { IfOk result (IsRunBy true program.now (interpreter_at_start 0 limits.steps ∷ []) (main ∷ []) limits) }
    ensures refused { IfErr result (λ fault. fault ≡ Memory) }
{
    run_alone(alloc, program, code, main, &[], limits)
}

/// What runs the code of so many threads, which share one heap.
fn interpreters(alloc: Global, count: usize, limits: Limits) -> Result<Vec<Interpreter>, AllocError>
    requires { count ≤ 16 }
    ensures starts { IfOk result (λ made. made.items ≡ starts_below count limits.steps) }
    ensures count { IfOk result (λ made. vec_len made ≡ count) }
{
    let mut made = Vec::new(alloc);
    'threads: while made.len() < count {
        let thread = made.len() as u8;
        made.push(Interpreter::new(alloc, thread, limits.steps))?;
    }
    Ok(made)
}

/// Runs several main classes, each on a thread of its own. Without a limit of patience a thread that waits for a monitor sleeps.
fn run_several<'a, R: Threads + Wait + Sync>(
    rt: &R,
    alloc: Global,
    program: &Program,
    code: &Code,
    mains: &[ClassId],
    limits: Limits,
) -> Result<Report, Fault<'a>>
    requires code { IsCode code.now program.now }
    requires mains { AreMains program.now mains.now }
    ensures ran { IfOk result (IsRunOf program.now (free_bodies (code_bodies program.now)) (starts_of mains.now limits) mains.now limits) }
    ensures refused { IfErr result (λ fault. (fault ≡ Memory) ⊎ (fault ≡ Threads)) }
{
    let bodies = interpreters(alloc, mains.len(), limits)?;
    let objects = Objects::new(alloc);
    match run_threads(
        rt, alloc, program, code, mains, bodies, objects, limits, &NoGate,
    ) {
        Ok(report) => Ok(report),
        Err(RunFault::NoMemory) => Err(Fault::Memory),
        Err(RunFault::NoThread) => Err(Fault::Threads),
    }
}

/// Runs these main classes in any order: one on the calling thread, several each on a thread of the machine.
fn run_unordered<'a, R: Threads + Wait + Sync>(
    rt: &R,
    alloc: Global,
    program: &Program,
    code: &Code,
    mains: &[ClassId],
    limits: Limits,
) -> Result<Report, Fault<'a>>
    requires code { IsCode code.now program.now }
    requires mains { AreMains program.now mains.now }
    ensures ran { IfOk result (IsRunBy (nat_lt (length mains.now) 2) program.now (starts_of mains.now limits) mains.now limits) }
    ensures refused { IfErr result (λ fault. (fault ≡ Memory) ⊎ (fault ≡ Threads)) }
{
    if let [main] = mains {
        return run_one(alloc, program, code, *main, limits);
    }
    run_several(rt, alloc, program, code, mains, limits)
}

/// Runs several main classes in this order, on the calling thread.
fn run_several_in_order<'a>(
    alloc: Global,
    program: &Program,
    code: &Code,
    mains: &[ClassId],
    order: &[usize],
    limits: Limits,
) -> Result<Report, Fault<'a>>
    requires code { IsCode code.now program.now }
    requires mains { AreMains program.now mains.now }
    requires order { AllByRecursion (λ t. t < length mains.now) order.now }
    ensures ran { IfOk result (IsOrderedRunOf program.now (code_bodies program.now) objects_at_start (starts_of mains.now limits) mains.now order.now) }
    ensures refused { IfErr result (λ fault. fault ≡ Memory) }
{
    let bodies = interpreters(alloc, mains.len(), limits)?;
    let objects = Objects::new(alloc);
    let report = run_ordered(alloc, program, code, mains, order, bodies, objects)?;
    Ok(report)
}

/// Runs these main classes in this order, on the calling thread.
fn run_in_order<'a>(
    alloc: Global,
    program: &Program,
    code: &Code,
    mains: &[ClassId],
    order: &[usize],
    limits: Limits,
) -> Result<Report, Fault<'a>>
    requires code { IsCode code.now program.now }
    requires mains { AreMains program.now mains.now }
    requires order { AllByRecursion (λ t. t < length mains.now) order.now }
    ensures ran { IfOk result (IsOrderedRunBy (nat_lt (length mains.now) 2) program.now (starts_of mains.now limits) mains.now order.now) }
    ensures refused { IfErr result (λ fault. fault ≡ Memory) }
{
    if let [main] = mains {
        return run_alone(alloc, program, code, *main, order, limits);
    }
    run_several_in_order(alloc, program, code, mains, order, limits)
}

/// Resolves the code of the classes and runs these main classes: in this order on the calling thread, or, where there is none, in any.
fn run_mains<'a, R: Threads + Wait + Sync>(
    rt: &R,
    alloc: Global,
    program: &Program,
    mains: &[ClassId],
    order: Option<&[usize]>,
    limits: Limits,
) -> Result<Report, Fault<'a>>
    requires mains { AreMains program.now mains.now }
    requires order { is_of_threads (length mains.now) (numbers_of order) ≡ true }
    ensures ran { IfOk result (IsRunOfMains program.now mains.now (numbers_of order.entry) limits) }
    ensures refused { IfErr result (λ fault. (fault ≡ Memory) ⊎ ((fault ≡ Threads) × (numbers_of order.entry ≡ None))) }
{
    let code = resolve(alloc, program)?;
    match order {
        Some(order) => run_in_order(alloc, program, &code, mains, order, limits),
        None => run_unordered(rt, alloc, program, &code, mains, limits),
    }
}

/// Runs the main classes that the text of `--mains` names, in the order that the words say, where they say one; `order` is that of `--order`.
fn run_program<'a, R: Threads + Wait + Sync, N: Named>(
    rt: &R,
    alloc: Global,
    program: &Program,
    words: &Run<'a>,
    order: Option<Vec<usize>>,
    limits: Limits,
    named: &mut N,
) -> Result<Report, Fault<'a>>
    requires said { order_in (text_of words.now.mains) (text_of words.now.order) ≡ Some (option_map (λ all. all.items) order) }
    ensures ran { IfOk result (IsRunAsked (N.held named.old) (run_words_of words.now) limits program.now) }
    ensures refused { IfErr result (IsRunRefusal (N.held named.old) program.now (run_words_of words.now)) }
    ensures files { KeepsAllBut None (N.held named.old) (N.held named.new) }
{
    let mains = match mains_of(alloc, program, words.mains) {
        Ok(mains) => mains,
        Err(fault) => return Err(fault),
    };
    let order = match order_for(alloc, program, &mains, words, order, named) {
        Ok(order) => order,
        Err(fault) => return Err(fault),
    };
    let order = order.as_deref();
    if !fits(order, mains.len()) {
        return Err(Fault::Order);
    }
    run_mains(rt, alloc, program, &mains, order, limits)
}

/// A program and what its run was.
#[derive(Drop)]
pub struct ProgramRun {
    /// The classes of the files, linked.
    pub program: Program,
    /// What the run of their main classes made.
    pub report: Report,
}

/// Links the classes of the files in this edition and runs the main classes that the text of `--mains` names, 1 to 16, separated by commas:
/// in the order that `--order` says, which is `order`, or in that of the events of the trace that `--replay` names; or where there is none,
/// one on the calling thread, several each on a thread of the machine.
///
/// The program is what linking makes of the classes that the files spell. The report is that of [`run_ordered`] where there is an order or
/// one class is named, and else that of [`run_threads`]; the code may begin so many instructions on each thread. Without an order it may
/// wait, for ever where the limits know no patience; the patience plays no part in an order.
///
/// # Errors
///
/// The first of: more than 256 files, or the first file's fault (`Fault::Files`, `Fault::Io`, `Fault::Jasmin`); the first fault of
/// linking (`Fault::Link`); no main class, one that no file has, or more than 16 (`Fault::Mains`); the trace to replay can't be read
/// (`Fault::Io`) or isn't a trace of these classes and threads (`Fault::Trace`); an order with a number that isn't below that of the main
/// classes (`Fault::Order`); a thread that can't be started (`Fault::Threads`). Being out of memory (`Fault::Memory`) may come before any
/// of them.
pub fn run_named<'a, R: Threads + Wait + Sync, N: Named>(
    rt: &R,
    alloc: Global,
    words: &Run<'a>,
    order: Option<Vec<usize>>,
    limits: Limits,
    edition: Edition,
    named: &mut N,
) -> Result<ProgramRun, Fault<'a>>
    requires said { order_in (text_of words.now.mains) (text_of words.now.order) ≡ Some (option_map (λ all. all.items) order) }
    ensures linked { IfOk result (λ ran. IsLinkedFrom (N.held named.old) (run_words_of words.now).files edition ran.program) }
    ensures ran { IfOk result (λ ran. IsRunAsked (N.held named.old) (run_words_of words.now) limits ran.program ran.report) }
    ensures refused { IfErr result (IsFilesRefusal (N.held named.old) (run_words_of words.now) edition) }
    ensures files { KeepsAllBut None (N.held named.old) (N.held named.new) }
{
    let program = match link_files(alloc, &words.files, edition, named) {
        Ok(program) => program,
        Err(fault) => return Err(fault),
    };
    match run_program(rt, alloc, &program, words, order, limits, named) {
        Ok(report) => Ok(ProgramRun { program, report }),
        Err(fault) => Err(fault),
    }
}
