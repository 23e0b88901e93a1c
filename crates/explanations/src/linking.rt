//! Classes that can't be linked.

ghost use Rattle.std.specs.Prelude.{◌≤◌, IfOk, vec_len};

use crate::Source;
use crate::circle::circle;
use crate::classes::{Class, Naming, class_named, classes_of, directive_in, nearest_class};
use crate::line::line_in;
use crate::members::{Member, members_of};
use crate::page::Page;
use hierarchy::{BuiltIn, LinkFaultKind};
use jasmin_text::form::Directive;
use jasmin_words::name::same;
use std::alloc::{AllocError, Global};

/// The codes of the kinds of fault.
fn code_of(kind: LinkFaultKind) -> &'static str {
    match kind {
        LinkFaultKind::RepeatedName => "H1",
        LinkFaultKind::UnknownSupertype => "H2",
        LinkFaultKind::Cycle => "H3",
        LinkFaultKind::SuperclassKind => "H4",
        LinkFaultKind::InterfaceKind => "H5",
        LinkFaultKind::ReservedName => "H6",
        LinkFaultKind::RepeatedMember => "H7",
        LinkFaultKind::TooMany => "H8",
        LinkFaultKind::NoMemory => "H9",
    }
}

impl Page {
    /// Shows a line of a file that names a class, with the file's name.
    pub(crate) fn show_naming(&mut self, class: &Class<'_>, naming: &Naming<'_>) {
        self.about("", class.file.as_bytes(), "\n");
        self.show(naming.number, naming.line, &naming.name);
    }
}

/// Of `H1`: both files.
fn repeated_name(page: &mut Page, classes: &[Class<'_>], class: &[u8]) {
    let mut count: usize = 0;
    for other in classes {
        if same(other.name(), class) && count < 2 {
            count += 1;
            page.show_naming(other, &other.head);
        }
    }
    page.about("both files have a class of the name ", class, "");
}

/// Whether the line is `.super`.
fn is_superclass(naming: &Naming<'_>) -> bool {
    match directive_in(naming.line) {
        Some(Directive::Super) => true,
        _ => false,
    }
}

/// Whether a class may extend a built-in one of this name.
fn is_extensible(name: &[u8]) -> bool {
    match BuiltIn::named(name) {
        Some(BuiltIn::System | BuiltIn::String | BuiltIn::PrintStream) | None => false,
        Some(_) => true,
    }
}

/// What is wrong with a line that names a supertype.
#[derive(Clone, Copy, PartialEq, Eq)]
enum Flaw {
    /// Nothing.
    None,
    /// There is no such class.
    Unknown,
    /// A class can't extend it.
    Final,
    /// It is an interface where a class is wanted.
    Interface,
    /// It is a class where an interface is wanted.
    Class,
    /// An interface extends something else than Object.
    NotObject,
}

/// What is wrong with the line that names the superclass of a class.
fn superclass_flaw(classes: &[Class<'_>], class: &Class<'_>, name: &[u8]) -> Flaw {
    match class_named(classes, name) {
        None if BuiltIn::named(name).is_none() => Flaw::Unknown,
        None if !is_extensible(name) => Flaw::Final,
        _ if class.is_interface && !same(name, b"java/lang/Object") => Flaw::NotObject,
        Some(other) if other.is_interface => Flaw::Interface,
        _ => Flaw::None,
    }
}

/// What is wrong with the line that names a supertype of a class.
fn flaw_of(classes: &[Class<'_>], class: &Class<'_>, naming: &Naming<'_>) -> Flaw {
    let name = naming.name.bytes;
    if is_superclass(naming) {
        return superclass_flaw(classes, class, name);
    }
    match class_named(classes, name) {
        Some(other) if other.is_interface => Flaw::None,
        Some(_) => Flaw::Class,
        None if BuiltIn::named(name).is_some() => Flaw::Class,
        None => Flaw::Unknown,
    }
}

/// Says what is wrong with a line that names a supertype.
fn say_flaw(page: &mut Page, classes: &[Class<'_>], name: &[u8], flaw: Flaw) {
    match flaw {
        Flaw::None => {}
        Flaw::Unknown => {
            page.about(
                "there is no class ",
                name,
                " in the files, and none is built in",
            );
            page.perhaps(nearest_class(classes, name, true));
        }
        Flaw::Final => page.about(
            "no class can extend ",
            name,
            ": of the built-in ones it can be Object or a throwable",
        ),
        Flaw::Interface => page.about("", name, " is an interface, so it is named by .implements"),
        Flaw::Class => page.about("", name, " is a class, so it is named by .super"),
        Flaw::NotObject => page.say(
            "an interface has java/lang/Object as its superclass, and names others by .implements",
        ),
    }
}

/// Of `H2`, `H4` and `H5`: the line that names the supertype.
fn wrong_supertype(page: &mut Page, classes: &[Class<'_>], name: &[u8]) {
    if let Some(class) = class_named(classes, name) {
        for naming in &class.supertypes {
            let flaw = flaw_of(classes, class, naming);
            if flaw != Flaw::None {
                page.show_naming(class, naming);
                say_flaw(page, classes, naming.name.bytes, flaw);
                return;
            }
        }
    }
    page.about("a supertype of ", name, " is wrong");
}

/// Of `H6`: the line of the class.
fn reserved_name(page: &mut Page, classes: &[Class<'_>], name: &[u8]) {
    if let Some(class) = class_named(classes, name) {
        page.show_naming(class, &class.head);
    }
    page.about(
        "names that begin with java/ are those of the built-in classes, and ",
        name,
        " is in a file",
    );
}

/// Whether two lines declare the same member.
fn are_same(member: &Member<'_>, other: &Member<'_>) -> bool {
    member.name.is(other.name.bytes) && member.descriptor.is(other.descriptor.bytes)
}

/// The first of the members that is the same as this one.
fn first_same<'a>(members: &[Member<'a>], member: &Member<'_>) -> Option<Member<'a>> {
    for other in members {
        if are_same(other, member) {
            return Some(*other);
        }
    }
    None
}

/// The first member that is there before, and the one before.
fn repeated_in<'a>(members: &[Member<'a>]) -> Option<(Member<'a>, Member<'a>)> {
    for member in members {
        if let Some(first) = first_same(members, member)
            && first.number < member.number
        {
            return Some((*member, first));
        }
    }
    None
}

/// Of `H7`: both lines.
fn repeated_member(
    alloc: Global,
    page: &mut Page,
    classes: &[Class<'_>],
    name: &[u8],
) -> Result<(), AllocError> {
    if let Some(class) = class_named(classes, name)
        && let Some((member, first)) = repeated_in(&members_of(alloc, &class.lines)?)
    {
        page.about("", class.file.as_bytes(), "\n");
        page.show(
            first.number,
            line_in(&class.lines, first.number),
            &first.name,
        );
        page.show(
            member.number,
            line_in(&class.lines, member.number),
            &member.name,
        );
        page.about(
            "",
            member.name.bytes,
            " is declared with this descriptor twice",
        );
    } else {
        page.about("a field or a method of ", name, " is declared twice");
    }
    Ok(())
}

/// Says why the classes of these files, each of the Jasmin form, can't be linked, where linking gave this fault with this class.
///
/// An `Err` means out of memory.
pub fn explain_linking(
    alloc: Global,
    sources: &[Source<'_>],
    class: &[u8],
    kind: LinkFaultKind,
) -> Result<Vec<u8>, AllocError>
    ensures some { IfOk result (λ text. 1 ≤ vec_len text) }
{
    let classes = classes_of(alloc, sources)?;
    let mut page = Page::new(alloc);
    match kind {
        LinkFaultKind::RepeatedName => repeated_name(&mut page, &classes, class),
        LinkFaultKind::Cycle => circle(alloc, &mut page, &classes, class)?,
        LinkFaultKind::ReservedName => reserved_name(&mut page, &classes, class),
        LinkFaultKind::RepeatedMember => repeated_member(alloc, &mut page, &classes, class)?,
        LinkFaultKind::TooMany => {
            page.about(
                "with the file of ",
                class,
                " there are more than 1,024 classes, or the quoted texts take more than the heap's 1,000,000 cells",
            );
        }
        LinkFaultKind::NoMemory => page.say("memory was refused while the classes were linked"),
        _ => wrong_supertype(&mut page, &classes, class),
    }
    page.ended(code_of(kind))
}
