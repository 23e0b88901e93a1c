//! Where methods are looked up: superclasses, and maximally specific superinterface methods.

ghost use Rattle.std.specs.Prelude.{◌≡◌};
ghost use Rattle.hierarchy.specs.ClassNumbers.{classes_in};
ghost use Rattle.hierarchy.specs.Methods.{method_of_superclasses, first_superinterface_method, is_overridden, specific_method, concrete_specific};
ghost use Rattle.hierarchy.specs.Found.{found_of};

use crate::class::ClassId;
use crate::class_list::ClassList;
use crate::declared_method::{Counted, DeclaredMethod};
use crate::program::Program;
use descriptors::MethodType;

/// How many there are, and the only one.
#[derive(Clone, Copy)]
pub(crate) enum Found {
    /// None.
    Nothing,
    /// Exactly one.
    One(DeclaredMethod),
    /// Two or more.
    Several,
}

impl Program {
    /// What a class declares that counts, else what the nearest superclass declares which declares such a method.
    pub(crate) fn method_of_superclasses(
        &self,
        counted: Counted,
        name: &[u8],
        method_type: &MethodType,
        id: ClassId,
    ) -> Option<DeclaredMethod>
        ensures { result ≡ method_of_superclasses self.now counted name.now method_type.now id }
    {
        for next in self.superclasses(id) {
            if let Some(method) = self.counted_method(counted, name, method_type, next) {
                return Some(method);
            }
        }
        None
    }

    /// The first superinterface method that is neither private nor static.
    pub(crate) fn first_superinterface_method(
        &self,
        name: &[u8],
        method_type: &MethodType,
        id: ClassId,
    ) -> Option<DeclaredMethod>
        ensures { result ≡ first_superinterface_method self.now name.now method_type.now id }
    {
        for interface in self.all_superinterfaces(id) {
            if let Some(method) = self.counted_method(
                Counted::Inherited,
                name,
                method_type,
                interface,
            ) {
                return Some(method);
            }
        }
        None
    }

    /// Whether one of these interfaces that is below `id` declares such a method too.
    fn is_overridden(
        &self,
        name: &[u8],
        method_type: &MethodType,
        interfaces: ClassList<'_>,
        id: ClassId,
    ) -> bool
        ensures { result ≡ is_overridden self.now name.now method_type.now (classes_in interfaces.entry) id }
    {
        for interface in interfaces {
            if self.is_subinterface(interface, id)
                && self
                    .counted_method(Counted::Inherited, name, method_type, interface)
                    .is_some()
            {
                return true;
            }
        }
        false
    }

    /// What an interface declares that is neither private nor static and that none of these overrides.
    fn specific_method(
        &self,
        name: &[u8],
        method_type: &MethodType,
        interfaces: ClassList<'_>,
        id: ClassId,
    ) -> Option<DeclaredMethod>
        ensures { result ≡ specific_method self.now name.now method_type.now (classes_in interfaces.entry) id }
    {
        let method = self.counted_method(Counted::Inherited, name, method_type, id)?;
        if self.is_overridden(name, method_type, interfaces, id) {
            return None;
        }
        Some(method)
    }

    /// The maximally specific superinterface methods of a class that aren't abstract.
    pub(crate) fn concrete_specific(
        &self,
        name: &[u8],
        method_type: &MethodType,
        id: ClassId,
    ) -> Found
        ensures { result ≡ found_of (concrete_specific self.now name.now method_type.now id) }
    {
        let interfaces = self.all_superinterfaces(id);
        let mut only = None;
        for interface in interfaces {
            if let Some(method) = self.specific_method(name, method_type, interfaces, interface) {
                if !method.access.is_abstract {
                    if only.is_some() {
                        return Found::Several;
                    }
                    only = Some(method);
                }
            }
        }
        match only {
            Some(method) => Found::One(method),
            None => Found::Nothing,
        }
    }
}
