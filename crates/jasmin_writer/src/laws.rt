//! What is written is read again.

ghost use Rattle.std.specs.Prelude.{◌≡◌, ◌<◌, ◌^◌, ◌++◌, ◌∷◌, [], ℕ, ℤ, FitsSigned, List, Bool, Ok, Some, true, false};
ghost use Rattle.std.specs.Int.{w32};
ghost use Rattle.std.specs.List.{list_all};
ghost use Rattle.std.specs.Fmt.{decimal, signed_decimal};
ghost use Rattle.std.specs.Str.{is_utf8};
ghost use Rattle.descriptors.specs.ClassName.{is_class_name};
ghost use Rattle.descriptors.specs.Signature.{Signature};
ghost use Rattle.descriptors.specs.Spelling.{field_spelling, method_spelling};
ghost use Rattle.descriptors.specs.declared.field.FieldType.{FieldType};
ghost use Rattle.jasmin_words.specs.Integers.{integer_of};
ghost use Rattle.jasmin_words.specs.Lexing.{Item, Text, fits, words_of};
ghost use Rattle.jasmin_words.specs.Names.{is_member_name};
ghost use Rattle.jasmin_words.specs.Quoting.{quoted};
ghost use Rattle.jasmin_words.specs.Spelling.{is_word_byte, IsSpelled};
ghost use Rattle.jasmin_text.specs.Forms.{form_at};
ghost use Rattle.jasmin_text.specs.Grammar.{Spells};
ghost use Rattle.jasmin_text.specs.Lines.{lines_of};
ghost use Rattle.jasmin_text.specs.Spellable.{is_element_type, is_method_type, IsSpellable};
ghost use Rattle.jasmin_text.specs.declared.class_text.ClassParts.{ClassParts};
ghost use Rattle.jasmin_text.specs.declared.form.Form.TheVariants as form;
ghost use Rattle.jasmin_text.specs.declared.instruction.Plain.{Plain};
ghost use Rattle.jasmin_text.specs.declared.instruction.Local.{Local};
ghost use Rattle.jasmin_text.specs.declared.instruction.Jump.{Jump};
ghost use Rattle.jasmin_text.specs.declared.instruction.FieldAccess.{FieldAccess};
ghost use Rattle.jasmin_text.specs.declared.instruction.Call.{Call};
ghost use Rattle.jasmin_text.specs.declared.instruction.TypeUse.{TypeUse};
ghost use Rattle.jasmin_reader.specs.File.{class_at};
ghost use Rattle.jasmin_writer.specs.Canonical.{label_text, class_lines, canonical_text};
ghost use Rattle.jasmin_writer.specs.CanonicalWords.{word_of};

/// An integer that was written is read as itself.
pub fn integers_are_read_again()
    ensures { (n : ℤ) → FitsSigned w32 n → integer_of (signed_decimal n) ≡ Some n }
{}

/// A string that was written is read as itself: on a line of its own, and before whatever follows it there.
pub fn strings_are_read_again()
    ensures alone { (bytes : List ℕ) → is_utf8 bytes ≡ true → fits bytes ≡ true → words_of (quoted bytes) ≡ Text bytes ∷ [] }
    ensures before { (fresh : Bool) (bytes rest : List ℕ) (words : List Item) → is_utf8 bytes ≡ true → fits bytes ≡ true
        → IsSpelled false rest words → IsSpelled fresh (quoted bytes ++ rest) (Text bytes ∷ words) }
{}

/// Names, descriptors, numbers and labels as they are written have only bytes of words, so that each is
/// in one word of its line.
pub fn parts_are_words()
    ensures class { (name : List ℕ) → is_class_name name ≡ true → list_all is_word_byte name ≡ true }
    ensures member { (name : List ℕ) → is_member_name name ≡ true → list_all is_word_byte name ≡ true }
    ensures field { (t : FieldType) → is_element_type t.element ≡ true → list_all is_word_byte (field_spelling t) ≡ true }
    ensures method { (m : Signature) → is_method_type m ≡ true → list_all is_word_byte (method_spelling m) ≡ true }
    ensures number { (n : ℕ) → n < 2 ^ 64 → list_all is_word_byte (decimal n) ≡ true }
    ensures label { (n : ℕ) → n < 2 ^ 64 → list_all is_word_byte (label_text n) ≡ true }
{}

/// The canonical spelling of a class text is a file of the form that spells this class text, and its lines
/// are the canonical lines.
pub fn canonical_texts_are_spelled()
    ensures spells { (c : ClassParts) → IsSpellable c → Spells (lines_of (canonical_text c)) c }
    ensures lines { (c : ClassParts) → IsSpellable c → lines_of (canonical_text c) ≡ class_lines c }
{}

/// The word that the canonical spelling writes for an instruction is read as that instruction's.
pub fn instruction_words_are_read_again()
    ensures plain { (p : Plain) → form_at (word_of (form.Plain p)) ≡ Some (form.Plain p) }
    ensures local { (l : Local) → form_at (word_of (form.Local l)) ≡ Some (form.Local l) }
    ensures jump { (j : Jump) → form_at (word_of (form.Jump j)) ≡ Some (form.Jump j) }
    ensures field { (f : FieldAccess) → form_at (word_of (form.Field f)) ≡ Some (form.Field f) }
    ensures call { (c : Call) → form_at (word_of (form.Call c)) ≡ Some (form.Call c) }
    ensures types { (t : TypeUse) → form_at (word_of (form.TypeUse t)) ≡ Some (form.TypeUse t) }
{}

/// The canonical spelling of a class text is read as this class text.
pub fn what_is_written_is_read()
    ensures { (c : ClassParts) → IsSpellable c → class_at (canonical_text c) ≡ Ok c }
{}
