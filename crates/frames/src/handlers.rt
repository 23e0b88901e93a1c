//! Where a thrown object is caught, and step 11 of initialization.
//!
//! Enter by [`handler_at`]: the row of a method's handler table that catches an object of a class (JVMS SE 8 2.10, 4.7.3); and
//! by [`replacement`]: what an initializer that throws an object of a class leaves (JLS SE 8 12.4.2 step 11).

ghost use Rattle.std.specs.Prelude.{◌↔◌, IsTrue, true, false};
ghost use Rattle.frames.specs.Handlers.{IsCaughtBy, Fits, FirstFits};
ghost use Rattle.frames.specs.Replacing.{Replaces};

use descriptors::ClassName;
use hierarchy::{BuiltIn, ClassId, Program, throwables_are_subclasses};
use jasmin_text::Handler;

/// Whether a row for this class, or for all, catches an object of another.
fn catches(program: &Program, caught: &Option<ClassName>, thrown: ClassId) -> bool
    ensures { IsTrue result ↔ IsCaughtBy program.now thrown caught.now }
{
    let Some(name) = caught else {
        return true;
    };
    match program.class_named(name.as_slice()) {
        Some(class) => program.is_subtype(thrown, class),
        None => false,
    }
}

fn fits(program: &Program, row: &Handler, place: usize, thrown: ClassId) -> bool
    ensures { IsTrue result ↔ Fits program.now place thrown row.now }
{
    row.from as usize <= place && place < row.to as usize && catches(program, &row.class, thrown)
}

/// The place where a frame goes on in which an object of a class is thrown at a place: that of the first row of its method's
/// handler table that fits (JVMS SE 8 2.10). `None`: no row fits, and the frame is left.
///
/// A row fits where its range holds the place, the first place in and the end place out, and where it catches all or names the
/// object's class, or a supertype of it; a name that no class has is none. Takes no memory.
pub fn handler_at(
    program: &Program,
    handlers: &[Handler],
    place: usize,
    thrown: ClassId,
) -> Option<u16>
    ensures { FirstFits program.now place thrown handlers.now result }
{
    for row in handlers {
        if fits(program, row, place, thrown) {
            return Some(row.handler);
        }
    }
    None
}

/// What step 11 leaves of the throwable by which an initializer ended (JLS SE 8 12.4.2).
#[derive(Clone, Copy, PartialEq, Eq)]
pub enum Replaced {
    /// The throwable itself.
    Same,
    /// A new ExceptionInInitializerError in its place.
    Wrapped,
}

/// Whether step 11 leaves a throwable of this class as it is, because it is an Error, or puts a new ExceptionInInitializerError in its
/// place (JLS SE 8 12.4.2). Takes no memory.
pub fn replacement(program: &Program, thrown: ClassId) -> Replaced
    ensures { Replaces program.now thrown result }
{
    throwables_are_subclasses(program, thrown);
    if program.is_subtype(thrown, program.built_in(BuiltIn::Error)) {
        Replaced::Same
    } else {
        Replaced::Wrapped
    }
}
