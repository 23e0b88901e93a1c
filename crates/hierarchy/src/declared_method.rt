//! Methods as their classes declare them.

ghost use Rattle.std.specs.Prelude.{◌≡◌};
ghost use Rattle.hierarchy.specs.MemberOrder.{key_of_method, AreSortedPlaces};
ghost use Rattle.hierarchy.specs.Methods.{method_from, declared_method, counts as counts_as, counted_method};

use crate::built_in::BuiltIn;
use crate::built_in_method::{BuiltInMethod, built_in_method};
use crate::class::ClassId;
use crate::member_order::compare_method_at;
use crate::program::Program;
use descriptors::MethodType;
use jasmin_text::{Access, Method};

/// A method of a program.
#[derive(Clone, Copy)]
pub enum MethodId {
    /// A method of a file's class: the class that declares it, and the method's place among those of the class.
    Declared(ClassId, usize),
    /// A method of a built-in class.
    BuiltIn(BuiltIn, BuiltInMethod),
}

/// A method as its class declares it.
#[derive(Clone, Copy)]
pub(crate) struct DeclaredMethod {
    pub(crate) id: MethodId,
    pub(crate) access: Access,
}

/// Which methods count in a search.
#[derive(Clone, Copy)]
pub(crate) enum Counted {
    /// Each.
    Each,
    /// Those that aren't static.
    Instance,
    /// Those that a class inherits, from a superinterface too: neither private nor static (JLS SE 8 8.4.8).
    Inherited,
}

impl Counted {
    fn counts(self, access: Access) -> bool
        ensures { result ≡ counts_as self access }
    {
        match self {
            Counted::Each => true,
            Counted::Instance => !access.is_static,
            Counted::Inherited => !access.private && !access.is_static,
        }
    }
}

/// The access words of a built-in class's method: `public` alone.
pub(crate) const PUBLIC: Access = Access {
    public: true,
    ..Access::NONE
};

/// The method of that name and descriptor among those of a file's class.
fn method_among(
    class: ClassId,
    methods: &[Method],
    places: &[usize],
    name: &[u8],
    method_type: &MethodType,
) -> Option<DeclaredMethod>
    requires places { AreSortedPlaces key_of_method methods.now places.now }
    ensures { result ≡ method_from class 0 name.now method_type.now methods.now }
{
    let searched = places.binary_search_by(|place| compare_method_at(
        methods,
        *place,
        name,
        method_type,
    ));
    let Ok(found) = searched else {
        return None;
    };
    let place = places[found];
    let Some(method) = methods.get(place) else {
        return None;
    };
    Some(DeclaredMethod {
        id: MethodId::Declared(class, place),
        access: method.access,
    })
}

impl Program {
    /// The method of that name and descriptor that a class declares.
    pub(crate) fn declared_method(
        &self,
        name: &[u8],
        method_type: &MethodType,
        id: ClassId,
    ) -> Option<DeclaredMethod>
        ensures { result ≡ declared_method self.now name.now method_type.now id }
    {
        match self.class(id) {
            Some(class) => method_among(
                id,
                class.methods.as_slice(),
                &self.member_places(id).methods,
                name,
                method_type,
            ),
            None => match self.built_in_at(id) {
                Some(class) => match built_in_method(class, name, method_type) {
                    Some(method) => Some(DeclaredMethod {
                        id: MethodId::BuiltIn(class, method),
                        access: PUBLIC,
                    }),
                    None => None,
                },
                None => None,
            },
        }
    }

    /// The method of that name and descriptor that a class declares, if it counts.
    pub(crate) fn counted_method(
        &self,
        counted: Counted,
        name: &[u8],
        method_type: &MethodType,
        id: ClassId,
    ) -> Option<DeclaredMethod>
        ensures { result ≡ counted_method self.now counted name.now method_type.now id }
    {
        match self.declared_method(name, method_type, id) {
            Some(method) => {
                if counted.counts(method.access) {
                    Some(method)
                } else {
                    None
                }
            }
            None => None,
        }
    }
}
