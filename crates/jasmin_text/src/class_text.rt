//! The parts of a class.

use crate::access::Access;
use crate::boxed::Boxed;
use crate::instruction::Instruction;
use descriptors::{ClassName, FieldType, MethodType};
use jasmin_words::name::MemberName;
use sequence::{Sequence, Text};

/// Whether a class text is of a class or of an interface.
#[derive(Clone, Copy)]
pub enum ClassKind {
    /// `.class`
    Class,
    /// `.interface`
    Interface,
}

/// An int or a text, as a field's value or an operand of `ldc`.
#[derive(Drop)]
pub enum Constant {
    /// An int.
    Int(i32),
    /// The characters of a string, in UTF-8, at most 65,535 bytes.
    Text(Boxed<Text>),
}

/// A field.
pub struct Field {
    /// Its access words.
    pub access: Access,
    /// Its name.
    pub name: MemberName,
    /// Its type.
    pub field_type: FieldType,
    /// Its value, if it has one: an int for `I`, `Z`, `B`, `C` and `S`, a text for `Ljava/lang/String;`.
    pub value: Option<Constant>,
}

impl Drop for Field {
    fn drop(self) {
        let Self {
            access: _,
            name: _,
            field_type: _,
            value: _,
        } = self;
    }
}

/// A row of a handler table (JVMS SE 8 4.7.3). Rows are in file order, and an empty range holds nothing.
#[derive(Drop)]
pub struct Handler {
    /// The class that is caught, `None` for all.
    pub class: Option<ClassName>,
    /// The first place of the range.
    pub from: u16,
    /// The place after the range.
    pub to: u16,
    /// The place of the handler.
    pub handler: u16,
}

/// The body of a method.
#[derive(Drop)]
pub struct Code {
    /// The most operands on the stack, at most 1,024.
    pub stack: u16,
    /// The number of locals, at most 1,024.
    pub locals: u16,
    /// The handler table.
    pub handlers: Sequence<Handler>,
    /// The instructions, one at least and 16,384 at most, where a switch counts one more for each label or key. Their
    /// places count from 0; a target may also be the place after the last.
    pub instructions: Sequence<Instruction<u16>>,
}

/// A method.
pub struct Method {
    /// Its access words.
    pub access: Access,
    /// Its name.
    pub name: MemberName,
    /// Its type.
    pub method_type: MethodType,
    /// Its body, `None` exactly where it is abstract.
    pub code: Option<Code>,
}

impl Drop for Method {
    fn drop(self) {
        let Self {
            access: _,
            name: _,
            method_type: _,
            code: _,
        } = self;
    }
}

/// The parts of a class or interface. [`crate::ClassText`] holds those that a file can spell.
#[derive(Drop)]
pub struct ClassParts {
    /// Class or interface.
    pub kind: ClassKind,
    /// Its access words.
    pub access: Access,
    /// Its name.
    pub name: ClassName,
    /// Its superclass, `java/lang/Object` where no file line names one.
    pub superclass: ClassName,
    /// Its direct superinterfaces in file order, at most 255.
    pub interfaces: Sequence<ClassName>,
    /// Its fields in file order. Fields and methods together are at most 1,024.
    pub fields: Sequence<Field>,
    /// Its methods in file order.
    pub methods: Sequence<Method>,
}
