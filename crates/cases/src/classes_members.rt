//! To which fields and methods references resolve.

use crate::text::Text;
use descriptors::{MethodType, parse_field, parse_method, write_field, write_method};
use hierarchy::{
    BuiltIn, BuiltInMethod, ClassId, FieldId, FieldKind, Invoke, MethodId, Printed, Program,
};
use jasmin_text::Field;
use std::alloc::Global;

/// The method that an instruction names.
#[derive(Drop)]
pub(crate) struct MethodReference<'a> {
    pub(crate) class: ClassId,
    pub(crate) name: &'a str,
    pub(crate) method_type: MethodType,
}

/// The class and the name of a member, `A/own`, of a class of the program.
fn member<'a>(program: &Program, text: &'a str) -> Option<(ClassId, &'a str)> {
    let (class, name) = text.rsplit_once('/')?;
    let class = program.class_named(class.as_bytes())?;
    Some((class, name))
}

/// The method that an instruction names, `A/own()V`.
pub(crate) fn method_reference<'a>(
    alloc: Global,
    program: &Program,
    text: &'a str,
) -> Option<MethodReference<'a>> {
    let (front, _) = text.split_once('(')?;
    let descriptor = text.strip_prefix(front)?;
    let (class, name) = member(program, front)?;
    match parse_method(alloc, descriptor.as_bytes()) {
        Ok(method_type) => Some(MethodReference {
            class,
            name,
            method_type,
        }),
        Err(_) => None,
    }
}

/// Adds the name of a class.
pub(crate) fn push_class(text: &mut Text, program: &Program, class: ClassId) {
    text.push(program.name(class).unwrap_or(b"?"));
}

/// The name of a built-in class without its package, which is that of its case.
pub(crate) fn simple_name(class: BuiltIn) -> &'static [u8] {
    match class {
        BuiltIn::Object => b"Object",
        BuiltIn::System => b"System",
        BuiltIn::String => b"String",
        BuiltIn::PrintStream => b"PrintStream",
        BuiltIn::Throwable => b"Throwable",
        BuiltIn::Exception => b"Exception",
        BuiltIn::Error => b"Error",
        BuiltIn::RuntimeException => b"RuntimeException",
        BuiltIn::ArithmeticException => b"ArithmeticException",
        BuiltIn::NullPointerException => b"NullPointerException",
        BuiltIn::IndexOutOfBoundsException => b"IndexOutOfBoundsException",
        BuiltIn::NegativeArraySizeException => b"NegativeArraySizeException",
        BuiltIn::ClassCastException => b"ClassCastException",
        BuiltIn::ArrayStoreException => b"ArrayStoreException",
        BuiltIn::IllegalMonitorStateException => b"IllegalMonitorStateException",
        BuiltIn::IllegalArgumentException => b"IllegalArgumentException",
        BuiltIn::IllegalStateException => b"IllegalStateException",
        BuiltIn::UnsupportedOperationException => b"UnsupportedOperationException",
        BuiltIn::ArrayIndexOutOfBoundsException => b"ArrayIndexOutOfBoundsException",
        BuiltIn::LinkageError => b"LinkageError",
        BuiltIn::VirtualMachineError => b"VirtualMachineError",
        BuiltIn::NoClassDefFoundError => b"NoClassDefFoundError",
        BuiltIn::ExceptionInInitializerError => b"ExceptionInInitializerError",
        BuiltIn::IncompatibleClassChangeError => b"IncompatibleClassChangeError",
        BuiltIn::VerifyError => b"VerifyError",
        BuiltIn::NoSuchFieldError => b"NoSuchFieldError",
        BuiltIn::NoSuchMethodError => b"NoSuchMethodError",
        BuiltIn::AbstractMethodError => b"AbstractMethodError",
        BuiltIn::InstantiationError => b"InstantiationError",
        BuiltIn::OutOfMemoryError => b"OutOfMemoryError",
        BuiltIn::StackOverflowError => b"StackOverflowError",
        BuiltIn::InternalError => b"InternalError",
    }
}

/// Adds a field by its name and type, `top I`.
pub(crate) fn push_field(alloc: Global, text: &mut Text, field: &Field) {
    text.push(field.name.as_slice());
    text.push(b" ");
    text.push_made(write_field(alloc, &field.field_type));
}

/// Adds a field by the class that declares it, its name and its type, or an error by its name without a package.
fn push_found_field(
    alloc: Global,
    text: &mut Text,
    program: &Program,
    found: Result<FieldId, BuiltIn>,
) {
    match found {
        Ok(FieldId::Out) => text.push(b"java/lang/System/out Ljava/io/PrintStream;"),
        Ok(FieldId::Declared(class, place)) => {
            push_class(text, program, class);
            text.push(b"/");
            if let Some(class) = program.class(class) {
                if let Some(field) = class.fields.as_slice().get(place) {
                    push_field(alloc, text, field);
                }
            }
        }
        Err(error) => text.push(simple_name(error)),
    }
}

fn printed(printed: Printed) -> &'static [u8] {
    match printed {
        Printed::Int => b"I",
        Printed::Char => b"C",
        Printed::Boolean => b"Z",
        Printed::Text => b"Ljava/lang/String;",
    }
}

/// Adds a method of a built-in class by its name and descriptor.
fn push_built_in(text: &mut Text, method: BuiltInMethod) {
    match method {
        BuiltInMethod::Init => text.push(b"<init>()V"),
        BuiltInMethod::InitWithText => text.push(b"<init>(Ljava/lang/String;)V"),
        BuiltInMethod::PrintLineAlone => text.push(b"println()V"),
        BuiltInMethod::Print(argument) => {
            text.push(b"print(");
            text.push(printed(argument));
            text.push(b")V");
        }
        BuiltInMethod::PrintLine(argument) => {
            text.push(b"println(");
            text.push(printed(argument));
            text.push(b")V");
        }
    }
}

/// Adds a method by the class that declares it, its name and its descriptor, or an error by its name without a package.
pub(crate) fn push_found(
    alloc: Global,
    text: &mut Text,
    program: &Program,
    found: Result<MethodId, BuiltIn>,
) {
    let method = match found {
        Ok(method) => method,
        Err(error) => {
            text.push(simple_name(error));
            return;
        }
    };
    push_class(text, program, program.declaring_class(method));
    text.push(b"/");
    match method {
        MethodId::BuiltIn(_, method) => push_built_in(text, method),
        MethodId::Declared(class, place) => {
            if let Some(class) = program.class(class) {
                if let Some(method) = class.methods.as_slice().get(place) {
                    text.push(method.name.as_slice());
                    text.push_made(write_method(alloc, &method.method_type));
                }
            }
        }
    }
}

pub(crate) fn invoke(instruction: &str) -> Option<Invoke> {
    match instruction {
        "invokestatic" => Some(Invoke::Static),
        "invokevirtual" => Some(Invoke::Virtual),
        "invokespecial" => Some(Invoke::Special),
        "invokeinterface" => Some(Invoke::Interface),
        _ => None,
    }
}

/// To which field `A/own I` resolves.
fn resolves_field(
    alloc: Global,
    program: &Program,
    kind: FieldKind,
    text: &str,
    came: &mut Text,
) -> bool {
    let Some((front, descriptor)) = text.split_once(' ') else {
        return false;
    };
    let Some((class, name)) = member(program, front) else {
        return false;
    };
    let Ok(field_type) = parse_field(alloc, descriptor.as_bytes()) else {
        return false;
    };
    let found = program.resolve_field(class, name.as_bytes(), &field_type, kind);
    push_found_field(alloc, came, program, found);
    true
}

/// To which method `A/own()V` resolves.
fn resolves_method(
    alloc: Global,
    program: &Program,
    how: Invoke,
    text: &str,
    came: &mut Text,
) -> bool {
    match method_reference(alloc, program, text) {
        Some(reference) => {
            let name = reference.name.as_bytes();
            let found = program.resolve_method(how, reference.class, name, &reference.method_type);
            push_found(alloc, came, program, found);
            true
        }
        None => false,
    }
}

/// To which field or method the reference of an instruction resolves.
pub(crate) fn resolves(alloc: Global, program: &Program, asked: &str, came: &mut Text) -> bool {
    let Some((instruction, reference)) = asked.split_once(' ') else {
        return false;
    };
    match instruction {
        "getstatic" | "putstatic" => {
            resolves_field(alloc, program, FieldKind::Static, reference, came)
        }
        "getfield" | "putfield" => {
            resolves_field(alloc, program, FieldKind::Instance, reference, came)
        }
        _ => match invoke(instruction) {
            Some(how) => resolves_method(alloc, program, how, reference, came),
            None => false,
        },
    }
}
