//! Where the innermost body is.

use frames::Thrown;
use heap::Monitor;
use hierarchy::{BuiltIn, ClassId};

/// Where the innermost body is.
#[derive(Clone, Copy)]
pub(crate) enum Phase {
    /// Before its first frame: the initializer of this class, or its method `main`, with this array as its argument.
    Begins(ClassId, Option<u32>),
    /// The method `main` of this class, whose argument isn't made yet.
    Enters(ClassId),
    /// The machine makes an object of this class, which leaves the body before its first frame.
    Fails(BuiltIn),
    /// Its innermost frame goes on.
    Runs,
    /// The instruction of its innermost frame has done its first half: an active use of its class, or a print, comes next.
    Half,
    /// The class is ready for which its innermost frame asked.
    Ready(ClassId),
    /// This object is thrown where its innermost frame asked for a class.
    Throws(Thrown),
    /// This monitor is entered before its innermost frame goes on; where it says so, for the frame's method.
    Locks(Monitor, bool),
    /// It is over: its first method returned, or this object left it, and step 11 is still to come.
    Over(Option<Thrown>),
    /// It came to an instruction that would be one more than its thread may begin, or a body above it did, which was ended for that.
    Spent,
}
