//! The methods of the built-in classes.

ghost use Rattle.std.specs.Prelude.{◌≡◌};
ghost use Rattle.hierarchy.specs.BuiltInMethods.{argument_of_element, argument_of, throwable_method, stream_method, built_in_method as built_in_method_of};

use crate::built_in::BuiltIn;
use descriptors::{BaseType, ElementType, MethodType};

/// What a method of java/io/PrintStream prints.
#[derive(Clone, Copy)]
pub enum Printed {
    /// An int, as a decimal.
    Int,
    /// A char.
    Char,
    /// A boolean.
    Boolean,
    /// A java/lang/String.
    Text,
}

/// A method of a built-in class. All are public instance methods with a body.
#[derive(Clone, Copy)]
pub enum BuiltInMethod {
    /// `<init>()V` of java/lang/Object and of each throwable.
    Init,
    /// `<init>(Ljava/lang/String;)V` of each throwable.
    InitWithText,
    /// `print` of java/io/PrintStream.
    Print(Printed),
    /// `println` of java/io/PrintStream with an argument.
    PrintLine(Printed),
    /// `println()V` of java/io/PrintStream.
    PrintLineAlone,
}

/// What a void method of a built-in class takes.
#[derive(Clone, Copy)]
pub(crate) enum Argument {
    /// No parameter.
    Nothing,
    /// One parameter of such a type.
    One(Printed),
    /// Something that no built-in method takes, or a result.
    Other,
}

fn argument_of_element_type(element: &ElementType) -> Argument
    ensures { result ≡ argument_of_element element.now }
{
    match element {
        ElementType::Base(BaseType::Int) => Argument::One(Printed::Int),
        ElementType::Base(BaseType::Char) => Argument::One(Printed::Char),
        ElementType::Base(BaseType::Boolean) => Argument::One(Printed::Boolean),
        ElementType::Base(_) => Argument::Other,
        ElementType::Class(name) => {
            if name.as_slice() == b"java/lang/String".as_slice() {
                Argument::One(Printed::Text)
            } else {
                Argument::Other
            }
        }
    }
}

fn argument_taken(method_type: &MethodType) -> Argument
    ensures { result ≡ argument_of method_type.now }
{
    match method_type.result() {
        Some(_) => Argument::Other,
        None => match method_type.parameters() {
            [] => Argument::Nothing,
            [parameter] => {
                if parameter.dimensions == 0 {
                    argument_of_element_type(&parameter.element)
                } else {
                    Argument::Other
                }
            }
            _ => Argument::Other,
        },
    }
}

/// The method of a throwable of that name and descriptor.
fn method_of_throwable(name: &[u8], argument: Argument) -> Option<BuiltInMethod>
    ensures { result ≡ throwable_method name.now argument }
{
    if name != b"<init>".as_slice() {
        return None;
    }
    match argument {
        Argument::Nothing => Some(BuiltInMethod::Init),
        Argument::One(Printed::Text) => Some(BuiltInMethod::InitWithText),
        _ => None,
    }
}

/// The method of java/io/PrintStream of that name and descriptor.
fn method_of_stream(name: &[u8], argument: Argument) -> Option<BuiltInMethod>
    ensures { result ≡ stream_method name.now argument }
{
    if name == b"print".as_slice() {
        match argument {
            Argument::One(printed) => Some(BuiltInMethod::Print(printed)),
            _ => None,
        }
    } else if name == b"println".as_slice() {
        match argument {
            Argument::Nothing => Some(BuiltInMethod::PrintLineAlone),
            Argument::One(printed) => Some(BuiltInMethod::PrintLine(printed)),
            Argument::Other => None,
        }
    } else {
        None
    }
}

/// The method of that name and descriptor that a built-in class declares. Takes no memory.
pub(crate) fn built_in_method(
    class: BuiltIn,
    name: &[u8],
    method_type: &MethodType,
) -> Option<BuiltInMethod>
    ensures { result ≡ built_in_method_of class name.now method_type.now }
{
    let argument = argument_taken(method_type);
    match class {
        BuiltIn::Object => {
            if name != b"<init>".as_slice() {
                return None;
            }
            match argument {
                Argument::Nothing => Some(BuiltInMethod::Init),
                _ => None,
            }
        }
        BuiltIn::System | BuiltIn::String => None,
        BuiltIn::PrintStream => method_of_stream(name, argument),
        _ => method_of_throwable(name, argument),
    }
}
