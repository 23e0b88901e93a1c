//! Base types and their letters.

ghost use Rattle.std.specs.Prelude.{◌≡◌};
ghost use Rattle.descriptors.specs.Letters.{letter_of, base_of_letter};

/// A base type of the machine (JVMS SE 8 4.3.2, table 4.3-A). Long, float and double are left out.
#[derive(Clone, Copy, PartialEq, Eq)]
pub enum BaseType {
    /// `Z`
    Boolean,
    /// `B`
    Byte,
    /// `C`
    Char,
    /// `S`
    Short,
    /// `I`
    Int,
}

impl BaseType {
    /// The letter that represents the type in a descriptor.
    pub fn letter(self) -> u8
        ensures { result ≡ letter_of self }
    {
        match self {
            BaseType::Boolean => b'Z',
            BaseType::Byte => b'B',
            BaseType::Char => b'C',
            BaseType::Short => b'S',
            BaseType::Int => b'I',
        }
    }

    /// The type that the letter represents, if it represents one.
    pub fn of_letter(letter: u8) -> Option<BaseType>
        ensures { result ≡ base_of_letter letter }
    {
        match letter {
            b'Z' => Some(BaseType::Boolean),
            b'B' => Some(BaseType::Byte),
            b'C' => Some(BaseType::Char),
            b'S' => Some(BaseType::Short),
            b'I' => Some(BaseType::Int),
            _ => None,
        }
    }
}
