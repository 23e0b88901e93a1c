//! Instructions as they are resolved, and what else running a class needs.

use crate::programs::{Question, Row};
use code::{Code, Element, ElementKind, MethodCode, Op, ResolvedType, resolve};
use descriptors::BaseType;
use hierarchy::{BuiltIn, BuiltInMethod, Printed, Program, static_count};
use std::alloc::Global;

/// A class with static and instance fields, an initializer, and static methods.
const MEMBERS: &[u8] =
    b".class D\n.field i I\n.field static a [LC;\n.field j I\n.field static k I = 5
.method abstract f()V\n.end method\n.method static <clinit>()V\n.limit stack 1\nreturn\n.end method
.method static m(ILjava/lang/Runnable;)I\n.limit stack 7\n.limit locals 9\niload 8\niinc 3 -2\nireturn\n.end method
.method static synchronized s()V\nreturn\n.end method";

/// A subclass whose main has instructions of each form.
const MAIN: &[u8] = b".class C\n.super D
.method static main()V\nreturn\n.end method\n.method static main([Ljava/lang/String;)V
getstatic C/k I\niconst_1\nisub\nputstatic D/a [LC;\nldc \"text\"\ninvokestatic C/m(ILjava/lang/Runnable;)I\ngoto End
invokestatic D/s()V\ngetstatic Missing/x I\ngetstatic D/i I\ngetstatic java/lang/System/out Ljava/io/PrintStream;
invokevirtual java/io/PrintStream/println(I)V\narraylength\nEnd:\nreturn\n.end method
.method o()V\nnew D\ngetfield C/j I\nputfield D/i I\nanewarray [LC;\nbaload\naastore\ncheckcast C\ninstanceof Gone
.limit stack 9\ninvokevirtual C/f()V\ninvokespecial D/f()V\ninvokespecial java/lang/Object/<init>()V\nathrow\nmonitorenter\nmonitorexit\n.end method";

/// A method of a class.
fn method(code: &Code, class: usize, place: usize) -> Option<&MethodCode> {
    code.class(class)?.methods.as_slice().get(place)
}

/// An instruction as it was resolved: its name, and its numbers, also that of an error, of an array's elements or of a type.
type Seen = (&'static str, i64, i64, i64);

/// The number of a built-in method, of those that are called here.
fn number_of(method: BuiltInMethod) -> i64 {
    match method {
        BuiltInMethod::PrintLine(Printed::Int) => 1,
        BuiltInMethod::Init => 2,
        _ => 0,
    }
}

/// The class within all dimensions of a type, if there is one.
fn class_in(of: ResolvedType) -> i64 {
    match of.element {
        Element::Class(class) => class as i64,
        _ => -1,
    }
}

/// An instruction that names a field, a method or a class.
fn seen(op: Op) -> Seen {
    match op {
        Op::GetStatic(class, field) => ("getstatic", class as i64, field as i64, 0),
        Op::PutStatic(class, field) => ("putstatic", class as i64, field as i64, 0),
        Op::GetField(class, field, cell) => {
            ("getfield", class as i64, field as i64, cell as i64)
        }
        Op::PutField(class, field, cell) => {
            ("putfield", class as i64, field as i64, cell as i64)
        }
        Op::GetOut => ("get out", 0, 0, 0),
        Op::InvokeStatic(class, method) => ("invokestatic", class as i64, method as i64, 0),
        Op::InvokeVirtual(class, method, words) => {
            ("invokevirtual", class as i64, method as i64, words as i64)
        }
        Op::InvokeSpecialFails(error, class, method, _) => {
            (
                "invokespecial fails",
                error as i64,
                class as i64,
                method as i64,
            )
        }
        Op::InvokeBuiltIn(_, method) => ("invoke built-in", number_of(method), 0, 0),
        Op::InvokeSpecialBuiltIn(_, method) => ("invokespecial built-in", number_of(method), 0, 0),
        Op::Fails(error) => ("fails", error as i64, 0, 0),
        Op::New(class) => ("new", class as i64, 0, 0),
        Op::NewArray(of) => ("new array", of.dimensions as i64, class_in(of), 0),
        Op::CheckCast(of) => ("checkcast", of.dimensions as i64, class_in(of), 0),
        Op::InstanceOfMissing => ("instanceof missing", 0, 0, 0),
        _ => seen_within(op),
    }
}

/// An instruction that touches its frame or an object alone.
fn seen_within(op: Op) -> Seen {
    match op {
        Op::PushInt(value) => ("push int", value as i64, 0, 0),
        Op::PushText(text) => ("push text", text as i64, 0, 0),
        Op::LoadInt(local) => ("load int", local as i64, 0, 0),
        Op::Increment(local, by) => ("increment", local as i64, by as i64, 0),
        Op::Subtract => ("subtract", 0, 0, 0),
        Op::Goto(place) => ("goto", place as i64, 0, 0),
        Op::ArrayLength => ("arraylength", 0, 0, 0),
        Op::LoadElement(kind) => ("load element", kind as i64, 0, 0),
        Op::StoreElement(kind) => ("store element", kind as i64, 0, 0),
        Op::Throw => ("athrow", 0, 0, 0),
        Op::EnterMonitor => ("monitorenter", 0, 0, 0),
        Op::ExitMonitor => ("monitorexit", 0, 0, 0),
        Op::ReturnInt => ("ireturn", 0, 0, 0),
        Op::Return => ("return", 0, 0, 0),
        _ => ("another", 0, 0, 0),
    }
}

/// The instructions of main.
const MAIN_OPS: &[Seen] = &[
    ("getstatic", 0, 1, 0),
    ("push int", 1, 0, 0),
    ("subtract", 0, 0, 0),
    ("putstatic", 0, 0, 0),
    ("push text", 3, 0, 0),
    ("invokestatic", 0, 2, 0),
    ("goto", 13, 0, 0),
    ("invokestatic", 0, 3, 0),
    ("fails", BuiltIn::NoClassDefFoundError as i64, 0, 0),
    ("fails", BuiltIn::IncompatibleClassChangeError as i64, 0, 0),
    ("get out", 0, 0, 0),
    ("invoke built-in", 1, 0, 0),
    ("arraylength", 0, 0, 0),
    ("return", 0, 0, 0),
];

/// The instructions on objects, arrays and types, with calls by a receiver; class 1 is C.
const OBJECT_OPS: &[Seen] = &[
    ("new", 0, 0, 0),
    ("getfield", 1, 0, 1),
    ("putfield", 0, 0, 0),
    ("new array", 1, 1, 0),
    ("load element", ElementKind::Byte as i64, 0, 0),
    ("store element", ElementKind::Reference as i64, 0, 0),
    ("checkcast", 0, 1, 0),
    ("instanceof missing", 0, 0, 0),
    ("invokevirtual", 1, 0, 0),
    (
        "invokespecial fails",
        BuiltIn::AbstractMethodError as i64,
        0,
        0,
    ),
    ("invokespecial built-in", 2, 0, 0),
    ("athrow", 0, 0, 0),
    ("monitorenter", 0, 0, 0),
    ("monitorexit", 0, 0, 0),
];

/// The instructions of the method with limits, parameters and a result.
const DECLARED_OPS: &[Seen] = &[
    ("load int", 8, 0, 0),
    ("increment", 3, -2, 0),
    ("ireturn", 0, 0, 0),
];

/// Whether a type is that of ints.
fn is_int(found: Option<&ResolvedType>) -> bool {
    match found {
        Some(found) => {
            found.dimensions == 0 && matches!(found.element, Element::Base(BaseType::Int))
        }
        None => false,
    }
}

/// The types of the static fields, and the places of the methods that start.
fn has_places(code: &Code) -> bool {
    let (Some(members), Some(main)) = (code.class(0), code.class(1)) else {
        return false;
    };
    let [array, int] = members.statics.as_slice() else {
        return false;
    };
    array.dimensions == 1
        && class_in(*array) == 1
        && is_int(Some(int))
        && members.initializer == Some(1)
        && members.main.is_none()
        && main.initializer.is_none()
        && main.main == Some(1)
        && main.statics.is_empty()
        && members.fields.len() == 2
        && members.cells_above == 0
        && main.cells_above == 2
}

/// Whether a method has these instructions.
fn has_ops(code: &Code, class: usize, place: usize, wanted: &[Seen]) -> bool {
    let Some(code) = method(code, class, place) else {
        return false;
    };
    let ops = code.ops.as_slice();
    for (at, row) in wanted.iter().enumerate() {
        match ops.get(at) {
            Some(op) if seen(*op) == *row => {}
            _ => return false,
        }
    }
    ops.len() == wanted.len()
}

/// Whether the methods have their limits and types, and the one that takes a monitor says so.
fn has_methods(code: &Code) -> bool {
    let (Some(code), Some(locked)) = (method(code, 0, 2), method(code, 0, 3)) else {
        return false;
    };
    code.stack == 7
        && code.locals == 9
        && code.parameters.len() == 2
        && is_int(code.parameters.as_slice().first())
        && matches!(
            code.parameters.as_slice().get(1),
            Some(ResolvedType {
                dimensions: 0,
                element: Element::Any,
            })
        )
        && is_int(code.result.as_ref())
        && !code.synchronized
        && locked.synchronized
}

/// Whether the first class has two static fields.
fn has_statics(program: &Program) -> bool {
    match program.classes().first() {
        Some(class) => static_count(class.fields.as_slice()) == 2,
        None => false,
    }
}

/// Whether the classes are resolved exactly, and no class beside them.
pub(crate) fn resolved(alloc: Global, program: &Program) -> bool {
    let Ok(code) = resolve(alloc, program) else {
        return false;
    };
    has_ops(&code, 1, 1, MAIN_OPS)
        && has_ops(&code, 1, 2, OBJECT_OPS)
        && has_ops(&code, 0, 2, DECLARED_OPS)
        && has_ops(&code, 0, 0, &[])
        && has_methods(&code)
        && has_places(&code)
        && has_statics(program)
        && code.class(2).is_none()
}

pub(crate) const RESOLVED: &[Row] = &[Row {
    files: &[MEMBERS, MAIN],
    question: Question::Resolved,
}];
