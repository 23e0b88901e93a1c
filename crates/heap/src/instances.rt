//! Which types references fit.

ghost use Rattle.std.specs.Prelude.{◌≡◌, ◌↔◌, IsTrue};
ghost use Rattle.code.specs.declared.class_code.Element.TheVariants as kinds;
ghost use Rattle.heap.specs.Instances.{Fits, IsAny, IsArrayOf, IsElementBelow, IsInstance, IsOfClass, IsOfObjects, IsOfType, class_at_reference, class_of_object};

use crate::object::HeapObject;
use crate::{Heap, ready_class};
use code::{Element, ResolvedType};
use hierarchy::{BuiltIn, ClassId, Program};

/// Whether a class is a subtype of what a type is made of.
fn is_class_below(program: &Program, class: ClassId, wanted: Element) -> bool
    ensures { IsTrue result ↔ IsElementBelow program.now (kinds.Class class.number) wanted }
{
    match wanted {
        Element::Class(number) => program.is_subtype(
            class,
            ClassId {
                number: number as usize,
            },
        ),
        _ => false,
    }
}

/// Whether what a type is made of is a subtype of what another is made of.
fn is_element_below(program: &Program, element: Element, wanted: Element) -> bool
    ensures { IsTrue result ↔ IsElementBelow program.now element wanted }
{
    match element {
        Element::Base(base) => match wanted {
            Element::Base(other) => base == other,
            _ => false,
        },
        Element::Class(number) => is_class_below(
            program,
            ClassId {
                number: number as usize,
            },
            wanted,
        ),
        Element::Any => false,
    }
}

/// Whether a type is java/lang/Object, or made of it.
fn is_of_objects(program: &Program, wanted: ResolvedType) -> bool
    ensures { IsTrue result ↔ IsOfObjects program.now wanted }
{
    match wanted.element {
        Element::Class(number) => number as usize == program.built_in(BuiltIn::Object).number,
        _ => false,
    }
}

fn is_any(element: Element) -> bool
    ensures { IsTrue result ↔ IsAny element }
{
    match element {
        Element::Any => true,
        _ => false,
    }
}

/// Whether an object of a class is of a type.
fn is_of_class(program: &Program, class: ClassId, wanted: ResolvedType) -> bool
    ensures { IsTrue result ↔ IsOfClass program.now class wanted }
{
    wanted.dimensions == 0 && is_class_below(program, class, wanted.element)
}

/// Whether an array whose elements are of a type is of another one.
fn is_array_of(program: &Program, element: ResolvedType, wanted: ResolvedType) -> bool
    ensures { IsTrue result ↔ IsArrayOf program.now element wanted }
{
    let depth = element.dimensions as usize + 1;
    let wanted_depth = wanted.dimensions as usize;
    wanted_depth == depth && is_element_below(program, element.element, wanted.element)
        || wanted_depth < depth && is_of_objects(program, wanted)
}

/// Whether what was made is of a type.
fn is_of_type(program: &Program, object: &HeapObject, wanted: ResolvedType) -> bool
    ensures { IsTrue result ↔ IsOfType program.now object.now wanted }
{
    match object {
        HeapObject::Instance(class, _) => is_of_class(program, *class, wanted),
        HeapObject::Array(element, _) => is_array_of(program, *element, wanted),
    }
}

/// The class at which selection starts for what was made.
fn selected_class(program: &Program, object: &HeapObject) -> ClassId
    ensures { result ≡ class_of_object program.now object.now }
{
    match object {
        HeapObject::Instance(class, _) => *class,
        HeapObject::Array(_, _) => program.built_in(BuiltIn::Object),
    }
}

impl Heap {
    /// Whether a reference other than null refers to an object or array of a type (JVMS SE 8 6.5 checkcast, instanceof): to an object
    /// of a subclass, to an array of as many dimensions whose innermost type is a subtype, or to an array where the type is
    /// java/lang/Object, or an array of it of fewer dimensions. Takes no memory.
    pub fn is_instance(&self, program: &Program, wanted: ResolvedType, reference: u32) -> bool
        ensures { IsTrue result ↔ IsInstance program.now self.now wanted reference }
    {
        match self.made_at(program, reference) {
            Some(object) => is_of_type(program, object, wanted),
            None => match program.ready_object(reference) {
                Some(object) => is_of_class(program, ready_class(program, object), wanted),
                None => false,
            },
        }
    }

    /// Whether a reference other than null fits a type: whether it refers to an instance of it, or the type's innermost class is
    /// an interface or not there. Takes no memory.
    pub fn fits(&self, program: &Program, wanted: ResolvedType, reference: u32) -> bool
        ensures { IsTrue result ↔ Fits program.now self.now wanted reference }
    {
        is_any(wanted.element) || self.is_instance(program, wanted, reference)
    }

    /// The class at which the selection of a method starts for what a reference refers to (JVMS SE 8 6.5 invokevirtual): an object's
    /// own, java/lang/Object for an array. Takes no memory.
    pub fn class_of(&self, program: &Program, reference: u32) -> Option<ClassId>
        ensures { result ≡ class_at_reference program.now self.now reference }
    {
        match self.made_at(program, reference) {
            Some(object) => Some(selected_class(program, object)),
            None => Some(ready_class(program, program.ready_object(reference)?)),
        }
    }
}
