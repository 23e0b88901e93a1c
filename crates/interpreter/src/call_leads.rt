//! What calls of instance methods come to (JVMS SE 8 6.5 invokevirtual, invokespecial, invokeinterface).

ghost use Rattle.std.specs.Prelude.{◌≡◌, Some, length, option_copied};
ghost use Rattle.code.specs.IsCode.{IsCode};
ghost use Rattle.hierarchy.specs.LinkedProgram.{LinkedProgram};
ghost use Rattle.interpreter.specs.CallLeads.{CallsBy, CallsInterface, HasReceiver, built_in_lead, enters_lead, init_types, interface_lead, parameters_at, receiver_of, reference_at as reference_at_place, selected_by, selected_lead, init_lead, virtual_lead};
ghost use Rattle.interpreter.specs.Leads.{CallsBuiltIn, CallsSpecialBuiltIn};
ghost use Rattle.interpreter.specs.Methods.{method_at};
ghost use Rattle.interpreter.specs.declared.lead.Lead.TheVariants as lead;

use crate::fitting::{built_in_type, is_callable_on, is_of_class};
use crate::lead::{Lead, NULL, VERIFY, id};
use crate::methods::{instruction_at, method_code};
use crate::print_leads::print;
use code::{Code, ResolvedType};
use frames::{Cell, FramePlace, Frames};
use heap::Heap;
use hierarchy::{BuiltIn, BuiltInMethod, Call, MethodId, Program};
use jasmin_text::{Instruction, MethodReference};

/// What a call at a place names.
fn reference_at(program: &Program, at: FramePlace) -> Option<&MethodReference>
    ensures { option_copied result ≡ reference_at_place program.now at }
{
    match instruction_at(program, at.class, at.method, at.place) {
        Some(Instruction::Call(_, named)) => Some(named.get()),
        Some(Instruction::CallInterface(named)) => Some(named.get()),
        _ => None,
    }
}

/// The method that a call runs which names this reference, where this one was resolved; or the error that it throws.
fn selected(
    program: &Program,
    at: FramePlace,
    call: Call,
    resolved: MethodId,
) -> Result<MethodId, BuiltIn>
    ensures { result ≡ selected_by program.now call resolved (reference_at_place program.now at) }
{
    match reference_at(program, at) {
        Some(named) => {
            let name = named.name.as_slice();
            program.select(call, resolved, name, &named.method_type)
        }
        None => Err(BuiltIn::VerifyError),
    }
}

/// A method is called with its receiver and so many arguments, which must fit its locals.
fn entered(
    program: &Program,
    resolved: &Code,
    class: usize,
    method: usize,
    count: usize,
    receiver: u32,
) -> Lead
    requires code { IsCode resolved.now program.now }
    ensures { result ≡ enters_lead (method_at program.now class method) class method count receiver }
{
    match method_code(program, resolved, class, method) {
        Some(callee) if count < callee.locals as usize => {
            Lead::Calls(class, method, count + 1, receiver)
        }
        _ => VERIFY,
    }
}

/// What a method of a built-in class does.
fn built_in(method: BuiltInMethod) -> Lead
    ensures { result ≡ built_in_lead method }
{
    match method {
        BuiltInMethod::Init => Lead::Drops(1),
        BuiltInMethod::InitWithText => Lead::Drops(2),
        BuiltInMethod::Print(_) | BuiltInMethod::PrintLine(_) | BuiltInMethod::PrintLineAlone => {
            Lead::Prints(method)
        }
    }
}

/// The method that was selected is called with so many arguments.
fn run(
    program: &Program,
    resolved: &Code,
    selected: Result<MethodId, BuiltIn>,
    count: usize,
    receiver: u32,
) -> Lead
    requires code { IsCode resolved.now program.now }
    ensures { result ≡ selected_lead program.now selected count receiver }
{
    match selected {
        Err(error) => Lead::Throws(error),
        Ok(MethodId::Declared(class, method)) => entered(
            program,
            resolved,
            class.number,
            method,
            count,
            receiver,
        ),
        Ok(MethodId::BuiltIn(_, method)) => built_in(method),
    }
}

/// How many arguments a constructor of a built-in class takes.
fn init_count(method: BuiltInMethod) -> usize
    ensures { (p : LinkedProgram) → result ≡ length (init_types p method) }
{
    match method {
        BuiltInMethod::InitWithText => 1,
        _ => 0,
    }
}

/// The constructor of the receiver's class is called, where that of a built-in class was resolved.
fn run_init(
    heap: &Heap,
    program: &Program,
    resolved: &Code,
    at: FramePlace,
    method: BuiltInMethod,
    receiver: u32,
) -> Lead
    requires code { IsCode resolved.now program.now }
    ensures { result ≡ init_lead program.now heap.now at method receiver }
{
    match heap.class_of(program, receiver) {
        Some(class) => {
            let named = MethodId::BuiltIn(BuiltIn::Object, method);
            let selected = selected(program, at, Call::Virtual(class), named);
            run(program, resolved, selected, init_count(method), receiver)
        }
        None => VERIFY,
    }
}

/// The method of the receiver's class is called.
fn run_virtual(
    heap: &Heap,
    program: &Program,
    resolved: &Code,
    class: u16,
    method: u16,
    count: usize,
    receiver: u32,
) -> Lead
    requires code { IsCode resolved.now program.now }
    requires count { count ≡ length (parameters_at program.now class method) }
    ensures { result ≡ virtual_lead program.now heap.now class method receiver }
{
    match heap.class_of(program, receiver) {
        Some(held) => {
            let call = Call::Virtual(held);
            let found = resolved.select_for(program, call, id(class), method as usize);
            run(program, resolved, found, count, receiver)
        }
        None => VERIFY,
    }
}

/// Likewise, where that class implements the interface named.
fn run_interface(
    heap: &Heap,
    program: &Program,
    resolved: &Code,
    class: u16,
    method: u16,
    implements: bool,
    count: usize,
    receiver: u32,
) -> Lead
    requires code { IsCode resolved.now program.now }
    requires count { count ≡ length (parameters_at program.now class method) }
    ensures { result ≡ interface_lead program.now heap.now class method implements receiver }
{
    if !implements {
        return Lead::Throws(BuiltIn::IncompatibleClassChangeError);
    }
    match heap.class_of(program, receiver) {
        Some(held) => {
            let selected = resolved.select_for(
                program,
                Call::Interface(held),
                id(class),
                method as usize,
            );
            run(program, resolved, selected, count, receiver)
        }
        None => VERIFY,
    }
}

/// Whether the operands are as a call of an instance method wants them, and its receiver.
#[derive(Clone, Copy)]
pub(crate) enum Receiver {
    /// They aren't.
    Unfit,
    /// They are, and the receiver is null.
    Null,
    /// They are, with this reference as receiver.
    At(u32),
}

fn receiver_by(callable: bool, value: Option<Cell>) -> Receiver
    ensures { result ≡ receiver_of callable value }
{
    if !callable {
        return Receiver::Unfit;
    }
    match value {
        Some(Cell::Null) => Receiver::Null,
        Some(Cell::Reference(number)) => Receiver::At(number),
        _ => Receiver::Unfit,
    }
}

fn find_receiver(
    frames: &Frames,
    heap: &Heap,
    program: &Program,
    named: u16,
    types: &[ResolvedType],
) -> Receiver
    ensures { HasReceiver program.now heap.now frames.now named types.now result }
{
    let callable = is_callable_on(frames, heap, program, named, types);
    receiver_by(callable, frames.operand(types.len()))
}

/// The types of a method's parameters.
fn parameters<'c>(
    program: &Program,
    resolved: &'c Code,
    class: u16,
    method: u16,
) -> &'c [ResolvedType]
    requires code { IsCode resolved.now program.now }
    ensures { result.now ≡ parameters_at program.now class method }
{
    match method_code(program, resolved, class as usize, method as usize) {
        Some(callee) => callee.parameters.as_slice(),
        None => &[],
    }
}

pub(crate) fn call_virtual(
    frames: &Frames,
    heap: &Heap,
    program: &Program,
    resolved: &Code,
    named: u16,
    class: u16,
    method: u16,
) -> Lead
    requires code { IsCode resolved.now program.now }
    ensures { CallsBy program.now heap.now frames.now named (parameters_at program.now class method) (virtual_lead program.now heap.now class method) result }
{
    let types = parameters(program, resolved, class, method);
    match find_receiver(frames, heap, program, named, types) {
        Receiver::Unfit => VERIFY,
        Receiver::Null => NULL,
        Receiver::At(receiver) => {
            run_virtual(
                heap,
                program,
                resolved,
                class,
                method,
                types.len(),
                receiver,
            )
        }
    }
}

pub(crate) fn call_interface(
    frames: &Frames,
    heap: &Heap,
    program: &Program,
    resolved: &Code,
    named: u16,
    class: u16,
    method: u16,
) -> Lead
    requires code { IsCode resolved.now program.now }
    ensures { CallsInterface program.now heap.now frames.now named class method result }
{
    let types = parameters(program, resolved, class, method);
    let object = frames.operand(types.len());
    let implements = is_of_class(heap, program, named, object);
    match find_receiver(frames, heap, program, named, types) {
        Receiver::Unfit => VERIFY,
        Receiver::Null => NULL,
        Receiver::At(receiver) => {
            run_interface(
                heap,
                program,
                resolved,
                class,
                method,
                implements,
                types.len(),
                receiver,
            )
        }
    }
}

pub(crate) fn call_special(
    frames: &Frames,
    heap: &Heap,
    program: &Program,
    resolved: &Code,
    named: u16,
    class: u16,
    method: u16,
) -> Lead
    requires code { IsCode resolved.now program.now }
    ensures { CallsBy program.now heap.now frames.now named (parameters_at program.now class method) (enters_lead (method_at program.now class method) class method (length (parameters_at program.now class method))) result }
{
    let types = parameters(program, resolved, class, method);
    match find_receiver(frames, heap, program, named, types) {
        Receiver::Unfit => VERIFY,
        Receiver::Null => NULL,
        Receiver::At(receiver) => entered(
            program,
            resolved,
            class as usize,
            method as usize,
            types.len(),
            receiver,
        ),
    }
}

pub(crate) fn fail_special(
    frames: &Frames,
    heap: &Heap,
    program: &Program,
    resolved: &Code,
    error: BuiltIn,
    named: u16,
    class: u16,
    method: u16,
) -> Lead
    requires code { IsCode resolved.now program.now }
    ensures { CallsBy program.now heap.now frames.now named (parameters_at program.now class method) (λ r. lead.Throws error) result }
{
    let types = parameters(program, resolved, class, method);
    match find_receiver(frames, heap, program, named, types) {
        Receiver::Unfit => VERIFY,
        Receiver::Null => NULL,
        Receiver::At(_) => Lead::Throws(error),
    }
}

/// The receiver of a constructor of a built-in class, which takes nothing or a text.
fn built_in_receiver(
    frames: &Frames,
    heap: &Heap,
    program: &Program,
    named: u16,
    method: BuiltInMethod,
) -> Receiver
    ensures { HasReceiver program.now heap.now frames.now named (init_types program.now method) result }
{
    match method {
        BuiltInMethod::InitWithText => {
            let types = [built_in_type(program, BuiltIn::String)];
            find_receiver(frames, heap, program, named, &types)
        }
        _ => find_receiver(frames, heap, program, named, &[]),
    }
}

/// A constructor of a built-in class, which is selected from the receiver's class on.
fn call_init(
    frames: &Frames,
    heap: &Heap,
    program: &Program,
    resolved: &Code,
    at: FramePlace,
    named: u16,
    method: BuiltInMethod,
) -> Lead
    requires code { IsCode resolved.now program.now }
    ensures { CallsBy program.now heap.now frames.now named (init_types program.now method) (init_lead program.now heap.now at method) result }
{
    match built_in_receiver(frames, heap, program, named, method) {
        Receiver::Unfit => VERIFY,
        Receiver::Null => NULL,
        Receiver::At(receiver) => { run_init(heap, program, resolved, at, method, receiver) }
    }
}

/// A constructor of a built-in class itself.
fn call_special_init(
    frames: &Frames,
    heap: &Heap,
    program: &Program,
    named: u16,
    method: BuiltInMethod,
) -> Lead
    ensures { CallsBy program.now heap.now frames.now named (init_types program.now method) (λ r. built_in_lead method) result }
{
    match built_in_receiver(frames, heap, program, named, method) {
        Receiver::Unfit => VERIFY,
        Receiver::Null => NULL,
        Receiver::At(_) => built_in(method),
    }
}

pub(crate) fn call_built_in(
    frames: &Frames,
    heap: &Heap,
    program: &Program,
    resolved: &Code,
    at: FramePlace,
    named: u16,
    method: BuiltInMethod,
) -> Lead
    requires code { IsCode resolved.now program.now }
    ensures { CallsBuiltIn program.now heap.now frames.now at named method result }
{
    match method {
        BuiltInMethod::Init | BuiltInMethod::InitWithText => {
            call_init(frames, heap, program, resolved, at, named, method)
        }
        BuiltInMethod::Print(_) | BuiltInMethod::PrintLine(_) | BuiltInMethod::PrintLineAlone => {
            print(frames, heap, program, method)
        }
    }
}

pub(crate) fn call_special_built_in(
    frames: &Frames,
    heap: &Heap,
    program: &Program,
    named: u16,
    method: BuiltInMethod,
) -> Lead
    ensures { CallsSpecialBuiltIn program.now heap.now frames.now named method result }
{
    match method {
        BuiltInMethod::Init | BuiltInMethod::InitWithText => {
            call_special_init(frames, heap, program, named, method)
        }
        BuiltInMethod::Print(_) | BuiltInMethod::PrintLine(_) | BuiltInMethod::PrintLineAlone => {
            print(frames, heap, program, method)
        }
    }
}
