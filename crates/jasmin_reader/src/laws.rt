//! The reading function and the grammar say the same.

ghost use Rattle.std.specs.Prelude.{◌≡◌, List, ℕ, Ok};
ghost use Rattle.jasmin_text.specs.Grammar.{Spells};
ghost use Rattle.jasmin_text.specs.Lines.{lines_of};
ghost use Rattle.jasmin_text.specs.declared.class_text.ClassParts.{ClassParts};
ghost use Rattle.jasmin_reader.specs.File.{class_at};

/// A file whose lines spell a class is read as that class.
pub fn what_is_spelled_is_read()
    ensures { (bytes : List ℕ) (c : ClassParts) → Spells (lines_of bytes) c → class_at bytes ≡ Ok c }
{}

/// A file that is read as a class spells that class.
pub fn what_is_read_is_spelled()
    ensures { (bytes : List ℕ) (c : ClassParts) → class_at bytes ≡ Ok c → Spells (lines_of bytes) c }
{}
