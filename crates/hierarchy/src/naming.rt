//! The classes' own names and kinds, before anything else of them is looked at.

ghost use Rattle.std.specs.Prelude.{◌≡◌, ℕ, [], position, IfOk, IfNone, IfSome};
ghost use Rattle.hierarchy.specs.Linking.{is_reserved, names_of, kinds_of, IsRepeated, IsFirst};

use jasmin_text::{ClassKind, ClassParts};
use std::alloc::{AllocError, Global};
use texts::Texts;

/// Whether a file's class may not have this name.
fn is_under_java(name: &[u8]) -> bool
    ensures { result ≡ is_reserved name.now }
{
    name.starts_with(b"java/")
}

/// The first class whose name lies under java/.
pub(crate) fn first_reserved(texts: &[ClassParts]) -> Option<usize>
    ensures { result ≡ position (λ t. is_reserved t.name) texts.now }
{
    texts
        .iter()
        .position(|text| is_under_java(text.name.as_slice()))
}

/// The first class that has the name of one before it; else all names are noted.
pub(crate) fn first_repeated(
    alloc: Global,
    texts: &[ClassParts],
    names: &mut Texts,
) -> Result<Option<usize>, AllocError>
    requires { names.old ≡ [] }
    ensures repeated { IfOk result (λ found. IfSome found (IsFirst (IsRepeated texts.now))) }
    ensures distinct { IfOk result (λ found. IfNone found ((i : ℕ) → IsRepeated texts.now i → ⊥)) }
    ensures names { IfOk result (λ found. IfNone found (names.new ≡ names_of texts.now)) }
{
    for (place, text) in texts.iter().enumerate() {
        let name = text.name.as_slice();
        if names.place(name).is_some() {
            return Ok(Some(place));
        }
        names.note(alloc, name)?;
    }
    Ok(None)
}

/// The kinds in file order.
pub(crate) fn kinds(alloc: Global, texts: &[ClassParts]) -> Result<Vec<ClassKind>, AllocError>
    ensures { IfOk result (λ kinds. kinds.items ≡ kinds_of texts.now) }
{
    let mut kinds = Vec::new(alloc);
    for text in texts {
        kinds.push(text.kind)?;
    }
    Ok(kinds)
}
