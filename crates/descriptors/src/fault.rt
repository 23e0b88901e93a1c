//! Why a text is no descriptor.

ghost use Rattle.std.specs.Prelude.{◌≡◌};
ghost use Rattle.descriptors.specs.Messages.{message_of};

use std::fmt;
use thiserror::Error;

/// Why a text is no descriptor: the first fault that is met from the left.
#[derive(Clone, Copy, Debug, Error)]
pub enum DescriptorFault {
    /// The text is empty.
    Empty,
    /// A letter comes where a type begins, and no type begins with it. `V` is such a letter in a field
    /// descriptor, an array and a parameter. So is what a method's text begins with in place of `(`.
    UnknownLetter,
    /// A class name isn't closed by `;` or isn't the name of a class, a method's parameters aren't closed
    /// by `)`, or the text ends right after a `[` or the `)`.
    Unfinished,
    /// An array has more than 255 dimensions. Met at the 256th `[`.
    TooManyDimensions,
    /// Bytes follow the end of the descriptor.
    BytesLeftOver,
    /// The letter of a type that this machine leaves out: `J` (long), `F` (float) or `D` (double).
    LeftOut,
    /// A method has more than 255 parameters. Met when the 256th has been read whole, so a fault within
    /// that one comes first.
    TooManyParameters,
}

impl DescriptorFault {
    /// What the fault prints as.
    fn message(self) -> &'static str
        ensures { result.now ≡ message_of self }
    {
        match self {
            DescriptorFault::Empty => "empty descriptor",
            DescriptorFault::UnknownLetter => "unknown letter in a descriptor",
            DescriptorFault::Unfinished => "unfinished descriptor",
            DescriptorFault::TooManyDimensions => "more than 255 dimensions",
            DescriptorFault::BytesLeftOver => "bytes left over after a descriptor",
            DescriptorFault::LeftOut => "long, float or double in a descriptor",
            DescriptorFault::TooManyParameters => "more than 255 parameters",
        }
    }
}

impl fmt::Display for DescriptorFault {
    ghost use Rattle.std.specs.Prelude.{Some};

    ghost output = { λ fault. Some (message_of fault) };

    fn fmt<W: fmt::Write>(&self, f: &mut fmt::Formatter<W>) -> fmt::Result {
        f.write_str(self.message())
    }
}
