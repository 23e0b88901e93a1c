//! Laws about texts and types that hold whatever memory there is.

ghost use Rattle.std.specs.Prelude.{◌≡◌, ℕ, List, Ok};
ghost use Rattle.descriptors.specs.declared.field.FieldType.{FieldType};
ghost use Rattle.descriptors.specs.Signature.{Signature};
ghost use Rattle.descriptors.specs.Spelling.{field_spelling, method_spelling, IsFieldType, IsMethodType};
ghost use Rattle.descriptors.specs.Reading.{field_of_text, method_of_text};

/// A field type and its text determine each other: the text of each type is read as that type, and
/// whatever is read as a type is the text of that type. Does nothing when it is called.
pub fn field_text_is_one()
    ensures written { (t : FieldType) → IsFieldType t → field_of_text (field_spelling t) ≡ Ok t }
    ensures read { (text : List ℕ) (t : FieldType) → field_of_text text ≡ Ok t → IsFieldType t × (text ≡ field_spelling t) }
{}

/// A method type and its text determine each other: the text of each type is read as that type, and
/// whatever is read as a type is the text of that type. Does nothing when it is called.
pub fn method_text_is_one()
    ensures written { (m : Signature) → IsMethodType m → method_of_text (method_spelling m) ≡ Ok m }
    ensures read { (text : List ℕ) (m : Signature) → method_of_text text ≡ Ok m → IsMethodType m × (text ≡ method_spelling m) }
{}
