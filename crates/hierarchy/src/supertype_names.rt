//! The names of supertypes, resolved.

ghost use Rattle.std.specs.Prelude.{◌≡◌, ◌≤◌};
ghost use Rattle.hierarchy.specs.Supertypes.{known, superclass_id, interface_id, interface_ids, MemoryOr};

use crate::built_in::BuiltIn;
use crate::class::ClassId;
use crate::fault::LinkFaultKind;
use descriptors::ClassName;
use jasmin_text::ClassKind;
use sequence::Sequence;
use std::alloc::Global;
use texts::Texts;

/// What a name means where a class names a supertype.
#[derive(Clone, Copy)]
pub(crate) enum Known {
    /// A class or interface of the files, by its place.
    File(usize, ClassKind),
    /// A built-in class.
    BuiltIn(BuiltIn),
    /// No class.
    Nothing,
}

/// What a name means among classes of these names and kinds, in file order.
pub(crate) fn known_class(names: &Texts, kinds: &[ClassKind], name: &[u8]) -> Known
    ensures { result ≡ known names.now kinds.now name.now }
{
    match names.place(name) {
        Some(place) => match kinds.get(place) {
            Some(kind) => Known::File(place, *kind),
            None => Known::Nothing,
        },
        None => match BuiltIn::named(name) {
            Some(class) => Known::BuiltIn(class),
            None => Known::Nothing,
        },
    }
}

/// The superclass of a class of that kind. `count` is the number of the files' classes.
pub(crate) fn superclass(
    count: usize,
    own: ClassKind,
    named: Known,
) -> Result<ClassId, LinkFaultKind>
    requires { count ≤ 1024 }
    ensures { result ≡ superclass_id count own named }
{
    match named {
        Known::Nothing => Err(LinkFaultKind::UnknownSupertype),
        Known::File(place, kind) => match (own, kind) {
            (ClassKind::Class, ClassKind::Class) => Ok(ClassId { number: place }),
            _ => Err(LinkFaultKind::SuperclassKind),
        },
        Known::BuiltIn(class) => {
            if !class.is_extensible() {
                return Err(LinkFaultKind::UnknownSupertype);
            }
            if own == ClassKind::Interface && class.number() != 0 {
                return Err(LinkFaultKind::SuperclassKind);
            }
            Ok(ClassId {
                number: count + class.number(),
            })
        }
    }
}

/// The superinterface that is named.
pub(crate) fn interface(named: Known) -> Result<ClassId, LinkFaultKind>
    ensures { result ≡ interface_id named }
{
    match named {
        Known::Nothing => Err(LinkFaultKind::UnknownSupertype),
        Known::BuiltIn(_) => Err(LinkFaultKind::InterfaceKind),
        Known::File(place, kind) => match kind {
            ClassKind::Class => Err(LinkFaultKind::InterfaceKind),
            ClassKind::Interface => Ok(ClassId { number: place }),
        },
    }
}

/// The superinterfaces of those names, in order.
pub(crate) fn interfaces(
    alloc: Global,
    names: &Texts,
    kinds: &[ClassKind],
    wanted: &[ClassName],
) -> Result<Sequence<ClassId>, LinkFaultKind>
    ensures { MemoryOr result (interface_ids names.now kinds.now wanted.now) }
{
    let mut found = Sequence::new(alloc);
    let mut rest = wanted;
    while let [name, after @ ..] = rest {
        match interface(known_class(names, kinds, name.as_slice())) {
            Ok(id) => match found.push(id) {
                Ok(()) => (),
                Err(_) => return Err(LinkFaultKind::NoMemory),
            },
            Err(kind) => return Err(kind),
        }
        rest = after;
    }
    Ok(found)
}
