//! What each class needs, as text.

ghost use Rattle.std.specs.Prelude.{◌≡◌, IfOk};
ghost use Rattle.sequence.specs.Written.{Adds};
ghost use Rattle.cli.specs.NeedsText.{names_text, needs_line, needs_text};

use hierarchy::{ClassId, Program};
use init_core::needs;
use sequence::Writer;
use std::alloc::{AllocError, Global};
use trace::write_class_name;

/// Writes a space and the name of each of these classes.
fn write_names(out: &mut Writer, program: &Program, classes: &[ClassId])
    ensures { Adds out.old (names_text program.now classes.now) out.new }
{
    for class in classes {
        out.push(b" ");
        write_class_name(out, program, *class);
    }
}

/// Writes the line of a class.
fn write_line(alloc: Global, out: &mut Writer, program: &Program, class: ClassId)
    ensures { Adds out.old (needs_line program.now class) out.new }
{
    write_class_name(out, program, class);
    out.push(b":");
    match needs(alloc, program, class) {
        Ok(needed) => write_names(out, program, &needed),
        Err(_) => out.lose(),
    }
    out.push(b"\n");
}

/// For each class in file order its name, a colon, and a space and a name for each class whose procedure is
/// done before its own initializer runs (JVMS SE 8 5.5 step 7).
pub fn write_needs(alloc: Global, program: &Program) -> Result<Vec<u8>, AllocError>
    ensures { IfOk result (λ text. text.items ≡ needs_text program.now) }
{
    let mut out = Writer::new(alloc);
    for number in 0..program.len() {
        write_line(alloc, &mut out, program, ClassId { number });
    }
    out.into_text()
}
