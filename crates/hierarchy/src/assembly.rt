//! Class texts made into classes, with their supertypes resolved.

ghost use Rattle.std.specs.Prelude.{◌≡◌, ◌≤◌, ◌⊎◌, length, IfOk, IfErr, Ok, Err};
ghost use Rattle.std.specs.List.{list_any};
ghost use Rattle.hierarchy.specs.Linking.{is_default, class_from, classes_from, class_of, Gives};
ghost use Rattle.hierarchy.specs.declared.fault.LinkFaultKind.TheVariants as because;

use crate::class::{Class, ClassId};
use crate::fault::{LinkFault, LinkFaultKind};
use crate::supertype_names::{interfaces, known_class, superclass};
use jasmin_text::{ClassKind, ClassParts, Method};
use sequence::Sequence;
use std::alloc::Global;
use texts::Texts;

/// Whether one of these methods is neither abstract nor static.
fn declares_default(methods: &[Method]) -> bool
    ensures { result ≡ list_any is_default methods.now }
{
    let mut rest = methods;
    while let [method, after @ ..] = rest {
        if !method.access.is_abstract && !method.access.is_static {
            return true;
        }
        rest = after;
    }
    false
}

/// The class of a text with these supertypes. Takes no memory.
fn class_with(text: ClassParts, superclass: ClassId, interfaces: Sequence<ClassId>) -> Class
    ensures { result ≡ class_of text superclass interfaces }
{
    let declares_default = declares_default(text.methods.as_slice());
    let ClassParts {
        kind,
        access,
        name,
        superclass: _,
        interfaces: _,
        fields,
        methods,
    } = text;
    Class {
        name,
        kind,
        access,
        superclass,
        interfaces,
        fields,
        methods,
        declares_default,
    }
}

/// The class of a text among classes of these names and kinds, or the fault of its supertypes' names.
fn linked_class(
    alloc: Global,
    names: &Texts,
    kinds: &[ClassKind],
    text: ClassParts,
) -> Result<Class, LinkFault>
    requires { length kinds.now ≤ 1024 }
    ensures { Gives result (class_from names.now kinds.now text) }
{
    let named = known_class(names, kinds, text.superclass.as_slice());
    match superclass(kinds.len(), text.kind, named) {
        Err(kind) => Err(LinkFault {
            kind,
            class: text.name,
        }),
        Ok(superclass) => match interfaces(alloc, names, kinds, text.interfaces.as_slice()) {
            Err(kind) => Err(LinkFault {
                kind,
                class: text.name,
            }),
            Ok(interfaces) => Ok(class_with(text, superclass, interfaces)),
        },
    }
}

/// The classes of texts, in order, or the first fault of their supertypes' names.
pub(crate) fn linked_classes(
    alloc: Global,
    names: &Texts,
    kinds: &[ClassKind],
    texts: Vec<ClassParts>,
) -> Result<Vec<Class>, LinkFault>
    requires { length kinds.now ≤ 1024 }
    ensures classes { IfOk result (λ made. classes_from names.now kinds.now texts.items ≡ Ok made.items) }
    ensures fault { IfErr result (λ f. (f.kind ≡ because.NoMemory) ⊎ (classes_from names.now kinds.now texts.items ≡ Err f)) }
{
    let mut classes = Vec::new(alloc);
    for text in texts {
        match linked_class(alloc, names, kinds, text) {
            Ok(class) => match classes.push(class) {
                Ok(()) => (),
                Err(refused) => {
                    return Err(LinkFault {
                        kind: LinkFaultKind::NoMemory,
                        class: refused.value.name,
                    });
                }
            },
            Err(fault) => return Err(fault),
        }
    }
    Ok(classes)
}
