//! Class texts linked to a program.

ghost use Rattle.std.specs.Prelude.{◌≡◌, ◌⊎◌, ℕ, ◌<◌, ◌≤◌, Some, IfOk, IfErr, length, position, slice_get, vec_len};
ghost use Rattle.std.specs.List.{All};
ghost use Rattle.jasmin_text.specs.Spellable.{IsSpellable};
ghost use Rattle.hierarchy.specs.LinkedProgram.{linked_as, class_names};
ghost use Rattle.hierarchy.specs.Hierarchy.{IsAcyclic, IsInRange};
ghost use Rattle.hierarchy.specs.UpwardOrder.{IsUpwardOrder};
ghost use Rattle.hierarchy.specs.Quoted.{quoted_texts, cells_of, FillsHeap};
ghost use Rattle.hierarchy.specs.LinkedTexts.{IsResolved};
ghost use Rattle.hierarchy.specs.Members.{repeats_member};
ghost use Rattle.hierarchy.specs.Objects.{HaveFewFields};
ghost use Rattle.hierarchy.specs.MemberPlaces.{HavePlaces};
ghost use Rattle.hierarchy.specs.Tables.{AreTables};
ghost use Rattle.hierarchy.specs.Linking.{names_of, kinds_of, IsFirst};
ghost use Rattle.hierarchy.specs.FirstFault.{HasNames, IsNameFault, HasNoCycle, HasDistinctMembers, FitsHeap, IsClassFault, IsFirstFault, LinksAs, LinksTo, IsMemory, name_in_text, name_in_class};
ghost use Rattle.hierarchy.specs.declared.fault.LinkFaultKind.TheVariants as because;

use crate::assembly::linked_classes;
use crate::class::{Class, ClassId};
use crate::edition::Edition;
use crate::fault::{LinkFault, LinkFaultKind};
use crate::member_places::{MemberPlaces, MemberSearch, search_members};
use crate::naming::{first_repeated, first_reserved, kinds};
use crate::program::Program;
use crate::quoted::first_beyond_heap;
use crate::tables::{Tables, tables_with};
use crate::upward::{SearchResult, search};
use descriptors::ClassName;
use jasmin_text::{ClassKind, ClassParts, ClassText};
use std::alloc::{AllocError, Global};
use texts::Texts;

/// A fault of the class at a place.
#[derive(Clone, Copy)]
struct FaultAt {
    kind: LinkFaultKind,
    place: usize,
}

impl FaultAt {
    /// Out of memory, reported for the first class.
    const NO_MEMORY: FaultAt = FaultAt {
        kind: LinkFaultKind::NoMemory,
        place: 0,
    };
}

/// The classes' own names and kinds, in file order.
#[derive(Drop)]
struct Directory {
    names: Texts,
    kinds: Vec<ClassKind>,
}

/// The names and kinds of classes whose own names are without a fault.
fn directory_of(alloc: Global, texts: &[ClassParts]) -> Result<Directory, FaultAt>
    requires { 0 < length texts.now }
    ensures good { IfOk result (λ made. HasNames texts.now) }
    ensures names { IfOk result (λ made. made.names ≡ names_of texts.now) }
    ensures kinds { IfOk result (λ made. made.kinds.items ≡ kinds_of texts.now) }
    ensures within { IfErr result (λ at. at.place < length texts.now) }
    ensures fault { IfErr result (λ at. (at.kind ≡ because.NoMemory) ⊎ IsNameFault texts.now at.kind at.place) }
{
    if texts.len() > 1024 {
        return Err(FaultAt {
            kind: LinkFaultKind::TooMany,
            place: 1024,
        });
    }
    if let Some(place) = first_reserved(texts) {
        return Err(FaultAt {
            kind: LinkFaultKind::ReservedName,
            place,
        });
    }
    let mut names = Texts::new(alloc);
    let Ok(repeated) = first_repeated(alloc, texts, &mut names) else {
        return Err(FaultAt::NO_MEMORY);
    };
    if let Some(place) = repeated {
        return Err(FaultAt {
            kind: LinkFaultKind::RepeatedName,
            place,
        });
    }
    match kinds(alloc, texts) {
        Ok(kinds) => Ok(Directory { names, kinds }),
        Err(_) => Err(FaultAt::NO_MEMORY),
    }
}

/// The places of the members of classes that declare none twice.
fn members_of(alloc: Global, classes: &[Class]) -> Result<Vec<MemberPlaces>, FaultAt>
    requires { 0 < length classes.now }
    ensures places { IfOk result (λ members. HavePlaces classes.now members.items) }
    ensures distinct { IfOk result (λ members. HasDistinctMembers classes.now) }
    ensures within { IfErr result (λ at. at.place < length classes.now) }
    ensures fault { IfErr result (λ at. (at.kind ≡ because.NoMemory) ⊎ (at.kind ≡ because.RepeatedMember) × (position repeats_member classes.now ≡ Some at.place)) }
{
    match search_members(alloc, classes) {
        Ok(MemberSearch::Places(members)) => Ok(members),
        Ok(MemberSearch::Repeated(place)) => Err(FaultAt {
            kind: LinkFaultKind::RepeatedMember,
            place,
        }),
        Err(_) => Err(FaultAt::NO_MEMORY),
    }
}

/// An order in which each class comes after its direct supertypes, where none is on a cycle.
fn upward_order_of(alloc: Global, classes: &[Class]) -> Result<Vec<ClassId>, FaultAt>
    requires some { 0 < length classes.now }
    requires few { length classes.now ≤ 1024 }
    requires in_range { IsInRange classes.now }
    ensures upward { IfOk result (λ order. IsUpwardOrder classes.now order.items) }
    ensures acyclic { IfOk result (λ order. IsAcyclic classes.now) }
    ensures within { IfErr result (λ at. at.place < length classes.now) }
    ensures fault { IfErr result (λ at. (at.kind ≡ because.NoMemory) ⊎ IsClassFault classes.now at.kind at.place) }
{
    match search(alloc, classes) {
        Ok(SearchResult::Upward(order)) => Ok(order),
        Ok(SearchResult::Cycle(place)) => Err(FaultAt {
            kind: LinkFaultKind::Cycle,
            place,
        }),
        Err(_) => Err(FaultAt::NO_MEMORY),
    }
}

/// The quoted texts of classes that the heap holds.
fn quoted_of(alloc: Global, classes: &[Class]) -> Result<Texts, FaultAt>
    requires { 0 < length classes.now }
    ensures quoted { IfOk result (λ quoted. quoted ≡ quoted_texts classes.now) }
    ensures cells { IfOk result (λ quoted. cells_of classes.now ≤ 1000000) }
    ensures heap { IfOk result (λ quoted. FitsHeap classes.now) }
    ensures within { IfErr result (λ at. at.place < length classes.now) }
    ensures fault { IfErr result (λ at. (at.kind ≡ because.NoMemory) ⊎ (at.kind ≡ because.TooMany) × IsFirst (FillsHeap classes.now) at.place) }
{
    let mut quoted = Texts::new(alloc);
    match first_beyond_heap(alloc, classes, &mut quoted) {
        Ok(None) => Ok(quoted),
        Ok(Some(place)) => Err(FaultAt {
            kind: LinkFaultKind::TooMany,
            place,
        }),
        Err(_) => Err(FaultAt::NO_MEMORY),
    }
}

/// What is kept beside classes that are without a fault.
fn tables_of(alloc: Global, classes: &[Class]) -> Result<Tables, FaultAt>
    requires some { 0 < length classes.now }
    requires few { length classes.now ≤ 1024 }
    requires fields { HaveFewFields classes.now }
    requires in_range { IsInRange classes.now }
    ensures acyclic { IfOk result (λ made. IsAcyclic classes.now) }
    ensures tables { IfOk result (AreTables classes.now) }
    ensures members { IfOk result (λ made. HasDistinctMembers classes.now) }
    ensures heap { IfOk result (λ made. FitsHeap classes.now) }
    ensures within { IfErr result (λ at. at.place < length classes.now) }
    ensures fault { IfErr result (λ at. (at.kind ≡ because.NoMemory) ⊎ IsClassFault classes.now at.kind at.place) }
{
    let order = match upward_order_of(alloc, classes) {
        Ok(order) => order,
        Err(at) => return Err(at),
    };
    let members = match members_of(alloc, classes) {
        Ok(members) => members,
        Err(at) => return Err(at),
    };
    let quoted = match quoted_of(alloc, classes) {
        Ok(quoted) => quoted,
        Err(at) => return Err(at),
    };
    match tables_with(alloc, classes, order.as_slice(), members, quoted) {
        Ok(tables) => Ok(tables),
        Err(_) => Err(FaultAt::NO_MEMORY),
    }
}

/// The name of the class at that place.
fn name_of_text(texts: Vec<ClassParts>, place: usize) -> ClassName
    requires { place < vec_len texts }
    ensures { name_in_text (slice_get texts.items place) ≡ Some result }
{
    let mut texts = texts;
    texts.swap_remove(place).name
}

/// The name of the class at that place.
fn name_of_class(classes: Vec<Class>, place: usize) -> ClassName
    requires { place < vec_len classes }
    ensures { name_in_class (slice_get classes.items place) ≡ Some result }
{
    let mut classes = classes;
    classes.swap_remove(place).name
}

/// The program of classes whose supertypes' names are resolved.
fn program_of(
    alloc: Global,
    names: Texts,
    classes: Vec<Class>,
    edition: Edition,
) -> Result<Program, LinkFault>
    requires some { 0 < vec_len classes }
    requires resolved { IsResolved classes.items }
    requires names { names ≡ class_names classes.items }
    ensures program { IfOk result (λ program. program ≡ linked_as edition classes.items) }
    ensures cycles { IfOk result (λ program. HasNoCycle classes.items) }
    ensures members { IfOk result (λ program. HasDistinctMembers classes.items) }
    ensures heap { IfOk result (λ program. FitsHeap classes.items) }
    ensures fault { IfErr result (λ f. IsMemory f ⊎ ((i : ℕ) × IsClassFault classes.items f.kind i × (name_in_class (slice_get classes.items i) ≡ Some f.class))) }
{
    match tables_of(alloc, &classes) {
        Ok(tables) => Ok(Program::new(classes, edition, names, tables)),
        Err(at) => Err(LinkFault {
            kind: at.kind,
            class: name_of_class(classes, at.place),
        }),
    }
}

/// Links the parts of classes that a file can spell.
fn link_parts(alloc: Global, texts: Vec<ClassParts>, edition: Edition) -> Result<Program, LinkFault>
    requires { All IsSpellable texts.items }
    ensures linked { IfOk result (LinksAs edition texts.items) }
    ensures fault { IfErr result (λ f. IsMemory f ⊎ IsFirstFault texts.items f) }
{
    if texts.as_slice().is_empty() {
        return Ok(Program::empty(alloc, edition));
    }
    match directory_of(alloc, &texts) {
        Ok(Directory { names, kinds }) => {
            match linked_classes(alloc, &names, &kinds, texts) {
                Ok(classes) => program_of(alloc, names, classes, edition),
                Err(fault) => Err(fault),
            }
        }
        Err(at) => Err(LinkFault {
            kind: at.kind,
            class: name_of_text(texts, at.place),
        }),
    }
}

/// The parts of class texts, in order.
fn parts_of(alloc: Global, texts: Vec<ClassText>) -> Result<Vec<ClassParts>, LinkFault>
    ensures parts { IfOk result (λ parts. parts.items ≡ texts.items) }
    ensures spellable { IfOk result (λ parts. All IsSpellable parts.items) }
    ensures fault { IfErr result IsMemory }
{
    let mut parts = Vec::new(alloc);
    for text in texts {
        match parts.push(text.into_parts()) {
            Ok(()) => (),
            Err(refused) => {
                return Err(LinkFault {
                    kind: LinkFaultKind::NoMemory,
                    class: refused.value.name,
                });
            }
        }
    }
    Ok(parts)
}

/// Links the classes of all files, in order, to a program of an edition of JVMS, or reports the first fault and its
/// class (JVMS SE 8 5.3.5, 5.4), which is the same in each edition. Of no class it makes the program that has the
/// built-in classes alone.
///
/// The passes, each over the classes in file order: over 1,024 classes; a name under java/; a name twice;
/// then of each class its superclass and its superinterfaces in order, of one name first whether it is known
/// and then whether it is of the right kind; then cycles, reported for the first class that itself is on one;
/// then a member twice; then the heap's share, which is one cell for each of three ready objects and one for
/// each distinct quoted text of a static field or of `ldc`, of 1,000,000 cells.
///
/// Being out of memory is [`LinkFaultKind::NoMemory`], may come before any fault, and leaves its class open.
pub fn link_as(alloc: Global, texts: Vec<ClassText>, edition: Edition) -> Result<Program, LinkFault>
    ensures linked { IfOk result (LinksAs edition texts.items) }
    ensures fault { IfErr result (λ f. IsMemory f ⊎ IsFirstFault texts.items f) }
{
    match parts_of(alloc, texts) {
        Ok(parts) => link_parts(alloc, parts, edition),
        Err(fault) => Err(fault),
    }
}

/// Links the classes of all files, in order, to a program of edition 8, as [`link_as`] does.
pub fn link(alloc: Global, texts: Vec<ClassText>) -> Result<Program, LinkFault>
    ensures linked { IfOk result (LinksTo texts.items) }
    ensures fault { IfErr result (λ f. IsMemory f ⊎ IsFirstFault texts.items f) }
{
    link_as(alloc, texts, Edition::Eight)
}
