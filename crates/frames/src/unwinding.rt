//! Where a thrown object is caught (JVMS SE 8 2.10).

ghost use Rattle.std.specs.Prelude.{◌≡◌, slice_get};
ghost use Rattle.frames.specs.Handlers.{FirstFits};
ghost use Rattle.hierarchy.specs.LinkedProgram.{id};
ghost use Rattle.hierarchy.specs.OwnNames.{methods_of};
ghost use Rattle.frames.specs.Unwinding.{Unwinds, handlers_in};

use crate::frames::Frames;
use crate::handlers::handler_at;
use crate::place::FramePlace;
use crate::thrown::Thrown;
use hierarchy::{ClassId, Program};
use jasmin_text::Handler;

/// The handler table of a frame's method.
fn handlers_of(program: &Program, at: FramePlace) -> &[Handler]
    ensures { result.now ≡ handlers_in (slice_get (methods_of program.now (id at.class)) at.method) }
{
    let Some(class) = program.class(ClassId { number: at.class }) else {
        return &[];
    };
    let Some(method) = class.methods.as_slice().get(at.method) else {
        return &[];
    };
    match &method.code {
        Some(code) => code.handlers.as_slice(),
        None => &[],
    }
}

/// The place of the handler that catches an object of a class in a frame, if one does.
fn handler_in(program: &Program, at: FramePlace, thrown: ClassId) -> Option<u16>
    ensures { FirstFits program.now at.place thrown (handlers_in (slice_get (methods_of program.now (id at.class)) at.method)) result }
{
    handler_at(program, handlers_of(program, at), at.place, thrown)
}

impl Frames {
    /// Throws an object in the innermost frame (JVMS SE 8 2.10, 6.5 athrow): the innermost frame of the body whose method has a
    /// handler for it goes on there, with the object as its only operand, and the frames within it are left. `false`: no frame
    /// of the body has one; all are left, and the object leaves the body. Takes no memory.
    pub fn catch(&mut self, program: &Program, thrown: Thrown) -> bool
        ensures { Unwinds program.now thrown self.old self.new result }
    {
        while let Some(at) = self.at() {
            if let Some(handler) = handler_in(program, at, thrown.class) {
                self.go_to_handler(handler, thrown.reference);
                return true;
            }
            self.leave();
            if at.is_first {
                return false;
            }
        }
        false
    }
}
