//! Subtypes, which a program looks up among the classes that it keeps for the look-up of fields.

ghost use Rattle.std.specs.Prelude.{◌≡◌, ◌↔◌, ◌≤◌, IsTrue, length, slice_get, option_copied};
ghost use Rattle.hierarchy.specs.LinkedProgram.{built_in_after};
ghost use Rattle.hierarchy.specs.ClassLists.{distinct};
ghost use Rattle.hierarchy.specs.Fields.{field_order};
ghost use Rattle.hierarchy.specs.Hierarchy.{Reaches, IsSubtype, IsAcyclic};
ghost use Rattle.hierarchy.specs.Superinterfaces.{IsTable};

use crate::built_in::BuiltIn;
use crate::class::{Class, ClassId};
use crate::class_set::ClassSet;

/// Whether a built-in class is a proper subclass of another class. There are at most six steps up.
fn is_built_in_below(classes: &[Class], class: BuiltIn, other: ClassId) -> bool
    requires { length classes.now ≤ 1024 }
    ensures { IsTrue result ↔ Reaches classes.now (built_in_after classes.now class) other }
{
    match class.superclass() {
        None => false,
        Some(superclass) => {
            if classes.len() + superclass.number() == other.number {
                return true;
            }
            is_built_in_below(classes, superclass, other)
        }
    }
}

/// The list of the class at that place.
pub(crate) fn list_at(lists: &[ClassSet], place: usize) -> Option<&ClassSet>
    ensures { option_copied result ≡ slice_get lists.now place }
{
    lists.get(place)
}

/// Whether a class is another one, or a chain of superclasses and superinterfaces leads up from it to the other, where
/// these are the classes in which a field of the files' classes is looked up: the class itself and all that is above it.
pub(crate) fn is_subtype(
    classes: &[Class],
    field_orders: &[ClassSet],
    id: ClassId,
    other: ClassId,
) -> bool
    requires few { length classes.now ≤ 1024 }
    requires acyclic { IsAcyclic classes.now }
    requires orders { IsTable (λ c. distinct (field_order classes.now c)) (length classes.now) field_orders.now }
    ensures { IsTrue result ↔ IsSubtype classes.now id other }
{
    if id == other {
        return true;
    }
    match list_at(field_orders, id.number) {
        Some(order) => order.contains(other),
        None => match BuiltIn::at(id.number - classes.len()) {
            Some(class) => is_built_in_below(classes, class, other),
            None => false,
        },
    }
}
