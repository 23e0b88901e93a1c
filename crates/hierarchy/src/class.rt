//! Linked classes and their numbers.

use descriptors::ClassName;
use jasmin_text::{Access, ClassKind, Field, Method};
use sequence::Sequence;

/// A class of a program by its number: the program's classes in file order from 0, then the built-in ones.
/// A number that a program doesn't have is no class of it.
#[derive(Clone, Copy, PartialEq, Eq, Hash)]
pub struct ClassId {
    /// The class's place among the program's classes, from 0, and after them among the built-in ones.
    pub number: usize,
}

/// A linked class or interface (JVMS SE 8 5.3, 5.4).
///
/// Its fields and methods are those of its text, in file order.
#[derive(Drop)]
pub struct Class {
    /// The internal name (JVMS SE 8 4.2.1).
    pub name: ClassName,
    /// Class or interface.
    pub kind: ClassKind,
    /// Its access words.
    pub access: Access,
    /// The direct superclass; java/lang/Object for an interface.
    pub superclass: ClassId,
    /// The direct superinterfaces, in the order of the file.
    pub interfaces: Sequence<ClassId>,
    /// The fields in file order, with their constants.
    pub fields: Sequence<Field>,
    /// The methods in file order, with their instructions as the text has them.
    pub methods: Sequence<Method>,
    /// Whether the class declares a method that is neither abstract nor static (JVMS SE 8 5.5): a private one
    /// or an interface's `<init>` counts too.
    pub declares_default: bool,
}
