//! Why class texts can't be linked.

use descriptors::ClassName;
use std::fmt;
use std::str::from_utf8;
use thiserror::Error;

/// Why class texts can't be linked (JVMS SE 8 5.3.5, 5.4).
///
/// A kind prints as the code by which the program names it, `H1` to `H9`, and a few words.
#[derive(Clone, Copy, Debug, Error)]
pub enum LinkFaultKind {
    /// `H1`: two classes have one name. Reported for the second of them.
    #[error("H1: repeated class name")]
    RepeatedName,
    /// `H2`: the superclass, or a superinterface, is unknown. A superclass is a class or interface of the program,
    /// java/lang/Object or a built-in throwable.
    #[error("H2: unknown superclass or superinterface")]
    UnknownSupertype,
    /// `H3`: the class is its own supertype.
    #[error("H3: class is its own supertype")]
    Cycle,
    /// `H4`: the superclass is an interface, or an interface's superclass isn't java/lang/Object.
    #[error("H4: superclass of the wrong kind")]
    SuperclassKind,
    /// `H5`: a superinterface is a class.
    #[error("H5: superinterface is a class")]
    InterfaceKind,
    /// `H6`: the name lies under java/.
    #[error("H6: name under java/")]
    ReservedName,
    /// `H7`: two fields, or two methods, have one name and one descriptor.
    #[error("H7: repeated field or method")]
    RepeatedMember,
    /// `H8`: over 1,024 classes, reported for the 1,025th; or more quoted texts than the heap holds, reported
    /// for the first class whose texts are too many.
    #[error("H8: too many classes or quoted texts")]
    TooMany,
    /// `H9`: out of memory.
    #[error("H9: out of memory")]
    NoMemory,
}

/// Why classes can't be linked, and the name of the class whose file is at fault. Where memory ran out the
/// class is one of those that were handed in.
#[derive(Error)]
#[error("{}: {kind}", shown(.class))]
pub struct LinkFault {
    /// What is wrong.
    #[source]
    pub kind: LinkFaultKind,
    /// The class whose file is at fault.
    pub class: ClassName,
}

/// A name as a text. It has bytes of ASCII alone.
fn shown(name: &ClassName) -> &str {
    from_utf8(name.as_slice()).unwrap_or("")
}

impl fmt::Debug for LinkFault {
    fn fmt<W: fmt::Write>(&self, f: &mut fmt::Formatter<W>) -> fmt::Result {
        f.debug_struct("LinkFault")
            .field("kind", &self.kind)
            .field("class", &shown(&self.class))
            .finish()
    }
}

impl Drop for LinkFault {
    fn drop(self) {
        let Self { kind: _, class: _ } = self;
    }
}
