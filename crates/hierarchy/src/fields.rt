//! Field resolution.

ghost use Rattle.std.specs.Prelude.{◌≡◌, ◌≤◌, filter, length};
ghost use Rattle.hierarchy.specs.StaticFields.{is_static_field};
ghost use Rattle.hierarchy.specs.Ancestry.{first_given, superclasses};
ghost use Rattle.hierarchy.specs.ClassNumbers.{classes_in};
ghost use Rattle.hierarchy.specs.MemberOrder.{key_of_field, AreSortedPlaces};
ghost use Rattle.hierarchy.specs.Fields.{field_order, field_from, is_class_element as is_class_element_of, built_in_field, declared_field, resolved_field};

use crate::built_in::BuiltIn;
use crate::class::ClassId;
use crate::class_list::ClassList;
use crate::member_order::compare_field_at;
use crate::program::Program;
use descriptors::{ElementType, FieldType};
use jasmin_text::Field;

/// A field of a program.
#[derive(Clone, Copy)]
pub enum FieldId {
    /// A field of a file's class: the class that declares it, and the field's place among those of the class.
    Declared(ClassId, usize),
    /// The field `out` of java/lang/System, the only one of a built-in class.
    Out,
}

/// Which kind of field an instruction wants (JVMS SE 8 chapter 6).
#[derive(Clone, Copy)]
pub enum FieldKind {
    /// A class variable, as `getstatic` and `putstatic` want it.
    Static,
    /// An instance variable, as `getfield` and `putfield` want it.
    Instance,
}

/// A field as its class declares it.
#[derive(Clone, Copy)]
pub(crate) struct DeclaredField {
    pub(crate) id: FieldId,
    pub(crate) is_static: bool,
}

/// The field of that name and descriptor among those of a file's class.
fn field_among(
    class: ClassId,
    fields: &[Field],
    places: &[usize],
    name: &[u8],
    field_type: &FieldType,
) -> Option<DeclaredField>
    requires places { AreSortedPlaces key_of_field fields.now places.now }
    ensures { result ≡ field_from class 0 name.now field_type.now fields.now }
{
    let searched = places.binary_search_by(|place| compare_field_at(
        fields, *place, name, field_type,
    ));
    let Ok(found) = searched else {
        return None;
    };
    let place = places[found];
    let Some(field) = fields.get(place) else {
        return None;
    };
    Some(DeclaredField {
        id: FieldId::Declared(class, place),
        is_static: field.access.is_static,
    })
}

/// How many of these fields are static. Takes no memory.
pub fn static_count(fields: &[Field]) -> usize
    ensures count { result ≡ length (filter is_static_field fields.now) }
    ensures within { result ≤ length fields.now }
{
    let mut count = 0;
    let mut rest = fields;
    while let [field, after @ ..] = rest {
        if field.access.is_static {
            count += 1;
        }
        rest = after;
    }
    count
}

/// Whether what follows a type's dimensions is the class of that internal name.
pub(crate) fn is_class_element(name: &[u8], element: &ElementType) -> bool
    ensures { result ≡ is_class_element_of name.now element.now }
{
    match element {
        ElementType::Base(_) => false,
        ElementType::Class(class) => class.as_slice() == name,
    }
}

/// The field of that name and descriptor that a built-in class declares.
fn field_of_built_in(
    class: Option<BuiltIn>,
    name: &[u8],
    field_type: &FieldType,
) -> Option<DeclaredField>
    ensures { result ≡ built_in_field class name.now field_type.now }
{
    match class {
        Some(BuiltIn::System) => {
            if name == b"out".as_slice()
                && field_type.dimensions == 0
                && is_class_element(b"java/io/PrintStream", &field_type.element)
            {
                Some(DeclaredField {
                    id: FieldId::Out,
                    is_static: true,
                })
            } else {
                None
            }
        }
        _ => None,
    }
}

impl Program {
    /// The field of that name and descriptor that a class declares.
    fn declared_field(
        &self,
        name: &[u8],
        field_type: &FieldType,
        id: ClassId,
    ) -> Option<DeclaredField>
        ensures { result ≡ declared_field self.now name.now field_type.now id }
    {
        match self.class(id) {
            Some(class) => field_among(
                id,
                class.fields.as_slice(),
                &self.member_places(id).fields,
                name,
                field_type,
            ),
            None => field_of_built_in(self.built_in_at(id), name, field_type),
        }
    }

    /// What the first of these classes declares that declares it.
    fn first_field(
        &self,
        name: &[u8],
        field_type: &FieldType,
        ids: ClassList<'_>,
    ) -> Option<DeclaredField>
        ensures { result ≡ first_given (declared_field self.now name.now field_type.now) (classes_in ids.entry) }
    {
        for id in ids {
            if let Some(found) = self.declared_field(name, field_type, id) {
                return Some(found);
            }
        }
        None
    }

    /// What the class or the nearest superclass declares that declares it.
    fn field_of_superclasses(
        &self,
        name: &[u8],
        field_type: &FieldType,
        id: ClassId,
    ) -> Option<DeclaredField>
        ensures { result ≡ first_given (declared_field self.now name.now field_type.now) (superclasses self.now.classes id) }
    {
        for next in self.superclasses(id) {
            if let Some(found) = self.declared_field(name, field_type, next) {
                return Some(found);
            }
        }
        None
    }

    /// The field that is found from a class on.
    fn found_field(&self, name: &[u8], field_type: &FieldType, id: ClassId) -> Option<DeclaredField>
        ensures { result ≡ first_given (declared_field self.now name.now field_type.now) (field_order self.now.classes id) }
    {
        if id.number < self.len() {
            return self.first_field(name, field_type, self.field_order(id));
        }
        // A built-in class has no superinterfaces.
        self.field_of_superclasses(name, field_type, id)
    }

    /// The field that a reference to a class, a name and a descriptor names, for an instruction that wants that
    /// kind of field (JVMS SE 8 5.4.3.2).
    ///
    /// It is looked up in the class, then in each direct superinterface and what is above it, then in the superclass
    /// and what is above it. `Err` is the class of the error to throw: NoSuchFieldError where no class declares it,
    /// IncompatibleClassChangeError where the field is static and an instance field is wanted, or the reverse.
    /// Takes no memory.
    pub fn resolve_field(
        &self,
        class: ClassId,
        name: &[u8],
        field_type: &FieldType,
        kind: FieldKind,
    ) -> Result<FieldId, BuiltIn>
        ensures { result ≡ resolved_field self.now class name.now field_type.now kind }
    {
        match self.found_field(name, field_type, class) {
            None => Err(BuiltIn::NoSuchFieldError),
            Some(field) => match (kind, field.is_static) {
                (FieldKind::Static, true) => Ok(field.id),
                (FieldKind::Static, false) => Err(BuiltIn::IncompatibleClassChangeError),
                (FieldKind::Instance, true) => Err(BuiltIn::IncompatibleClassChangeError),
                (FieldKind::Instance, false) => Ok(field.id),
            },
        }
    }
}
