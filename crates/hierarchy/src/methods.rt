//! Method resolution.

ghost use Rattle.std.specs.Prelude.{◌≡◌};
ghost use Rattle.hierarchy.specs.MethodResolution.{kind_of, found_method, may_name as may_be_named_by, declaring_class, is_init as has_init_name, suits as suits_as, is_inherited_init, resolved_method};

use crate::built_in::BuiltIn;
use crate::class::ClassId;
use crate::declared_method::{Counted, DeclaredMethod, MethodId};
use crate::lookup::Found;
use crate::program::Program;
use descriptors::MethodType;
use jasmin_text::ClassKind;

/// An instruction that calls a method (JVMS SE 8 6.5).
#[derive(Clone, Copy)]
pub enum Invoke {
    /// `invokestatic`
    Static,
    /// `invokevirtual`
    Virtual,
    /// `invokespecial`
    Special,
    /// `invokeinterface`
    Interface,
}

impl Invoke {
    /// Whether the instruction may name a class or interface.
    fn may_name(self, kind: ClassKind) -> bool
        ensures { result ≡ may_be_named_by self kind }
    {
        match (self, kind) {
            (Invoke::Virtual, ClassKind::Interface) => false,
            (Invoke::Interface, ClassKind::Class) => false,
            _ => true,
        }
    }

    /// Whether a method that was found suits the instruction.
    fn suits(self, method: DeclaredMethod) -> bool
        ensures { result ≡ suits_as self method }
    {
        match self {
            Invoke::Static => method.access.is_static,
            Invoke::Virtual => !method.access.is_static,
            Invoke::Special => !method.access.is_static,
            Invoke::Interface => !method.access.is_static && !method.access.private,
        }
    }
}

/// Whether it is the name of an instance initialization method.
pub(crate) fn is_init(name: &[u8]) -> bool
    ensures { result ≡ has_init_name name.now }
{
    name == b"<init>".as_slice()
}

impl Program {
    /// Whether a class is a class or an interface. The built-in ones are classes. Takes no memory.
    pub fn kind_of(&self, id: ClassId) -> ClassKind
        ensures { result ≡ kind_of self.now id }
    {
        match self.class(id) {
            Some(class) => class.kind,
            None => ClassKind::Class,
        }
    }

    /// The class that declares a method.
    pub fn declaring_class(&self, method: MethodId) -> ClassId
        ensures { result ≡ declaring_class self.now method }
    {
        match method {
            MethodId::Declared(class, _) => class,
            MethodId::BuiltIn(class, _) => self.built_in(class),
        }
    }

    /// The method that is looked up.
    fn found_method(
        &self,
        name: &[u8],
        method_type: &MethodType,
        id: ClassId,
    ) -> Option<DeclaredMethod>
        ensures { result ≡ found_method self.now name.now method_type.now id }
    {
        let above = match self.kind_of(id) {
            ClassKind::Class => self.method_of_superclasses(Counted::Each, name, method_type, id),
            ClassKind::Interface => self.declared_method(name, method_type, id),
        };
        match above {
            Some(method) => Some(method),
            None => match self.concrete_specific(name, method_type, id) {
                Found::One(method) => Some(method),
                _ => self.first_superinterface_method(name, method_type, id),
            },
        }
    }

    /// Whether `invokespecial` found an `<init>` of another class than the one named.
    fn is_inherited_init(
        &self,
        how: Invoke,
        class: ClassId,
        name: &[u8],
        method: DeclaredMethod,
    ) -> bool
        ensures { result ≡ is_inherited_init self.now how class name.now method }
    {
        match how {
            Invoke::Special => is_init(name) && self.declaring_class(method.id) != class,
            _ => false,
        }
    }

    /// The method that a reference to a class, a name and a descriptor names, for an instruction
    /// (JVMS SE 8 5.4.3.3, 5.4.3.4).
    ///
    /// In a class it is looked up in the class and its superclasses, in an interface in the interface itself; then it
    /// is the one maximally specific superinterface method that isn't abstract, else the first superinterface method
    /// that is neither private nor static.
    ///
    /// `Err` is the class of the error to throw: IncompatibleClassChangeError where `invokevirtual` names an
    /// interface or `invokeinterface` a class, before any look-up; NoSuchMethodError where no method is found, or
    /// where `invokespecial` of `<init>` finds that of another class; IncompatibleClassChangeError where a static
    /// method is found and an instance method is wanted, or the reverse, or `invokeinterface` finds a private one.
    /// Takes no memory.
    pub fn resolve_method(
        &self,
        how: Invoke,
        class: ClassId,
        name: &[u8],
        method_type: &MethodType,
    ) -> Result<MethodId, BuiltIn>
        ensures { result ≡ resolved_method self.now how class name.now method_type.now }
    {
        if !how.may_name(self.kind_of(class)) {
            return Err(BuiltIn::IncompatibleClassChangeError);
        }
        match self.found_method(name, method_type, class) {
            None => Err(BuiltIn::NoSuchMethodError),
            Some(method) => {
                if self.is_inherited_init(how, class, name, method) {
                    Err(BuiltIn::NoSuchMethodError)
                } else if how.suits(method) {
                    Ok(method.id)
                } else {
                    Err(BuiltIn::IncompatibleClassChangeError)
                }
            }
        }
    }
}
