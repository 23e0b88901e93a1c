//! The classes that are there from the start.

ghost use Rattle.std.specs.Prelude.{◌≡◌, ◌<◌, length, slice_get, option_copied, IfSome};
ghost use Rattle.hierarchy.specs.declared.built_in.TheConstants.{BUILT_IN_COUNT};
ghost use Rattle.hierarchy.specs.BuiltIn.{number_of, superclass_of_built_in, built_ins, built_in_named, may_be_superclass, built_in_names, plain, place_of};

/// A class that belongs to no file: it counts as initialized from the start (JVMS SE 8 5.5 has nothing left
/// to do for it) and gives no event. Each variant is the class of that name in java/lang, but for PrintStream, which is
/// java/io/PrintStream; they come in the order of their numbers.
#[derive(Clone, Copy, PartialEq, Eq)]
pub enum BuiltIn {
    Object,
    System,
    String,
    PrintStream,
    Throwable,
    Exception,
    Error,
    RuntimeException,
    ArithmeticException,
    NullPointerException,
    IndexOutOfBoundsException,
    NegativeArraySizeException,
    ClassCastException,
    ArrayStoreException,
    IllegalMonitorStateException,
    IllegalArgumentException,
    IllegalStateException,
    UnsupportedOperationException,
    ArrayIndexOutOfBoundsException,
    LinkageError,
    VirtualMachineError,
    NoClassDefFoundError,
    ExceptionInInitializerError,
    IncompatibleClassChangeError,
    VerifyError,
    NoSuchFieldError,
    NoSuchMethodError,
    AbstractMethodError,
    InstantiationError,
    OutOfMemoryError,
    StackOverflowError,
    InternalError,
}

/// How many built-in classes there are.
pub const BUILT_IN_COUNT: usize = 32;

/// The internal names of the built-in classes, in the order of their numbers.
pub const BUILT_IN_NAMES: [&[u8]; BUILT_IN_COUNT] = [
    b"java/lang/Object",
    b"java/lang/System",
    b"java/lang/String",
    b"java/io/PrintStream",
    b"java/lang/Throwable",
    b"java/lang/Exception",
    b"java/lang/Error",
    b"java/lang/RuntimeException",
    b"java/lang/ArithmeticException",
    b"java/lang/NullPointerException",
    b"java/lang/IndexOutOfBoundsException",
    b"java/lang/NegativeArraySizeException",
    b"java/lang/ClassCastException",
    b"java/lang/ArrayStoreException",
    b"java/lang/IllegalMonitorStateException",
    b"java/lang/IllegalArgumentException",
    b"java/lang/IllegalStateException",
    b"java/lang/UnsupportedOperationException",
    b"java/lang/ArrayIndexOutOfBoundsException",
    b"java/lang/LinkageError",
    b"java/lang/VirtualMachineError",
    b"java/lang/NoClassDefFoundError",
    b"java/lang/ExceptionInInitializerError",
    b"java/lang/IncompatibleClassChangeError",
    b"java/lang/VerifyError",
    b"java/lang/NoSuchFieldError",
    b"java/lang/NoSuchMethodError",
    b"java/lang/AbstractMethodError",
    b"java/lang/InstantiationError",
    b"java/lang/OutOfMemoryError",
    b"java/lang/StackOverflowError",
    b"java/lang/InternalError",
];

/// The built-in classes in the order of their numbers.
const BUILT_INS: [BuiltIn; BUILT_IN_COUNT] = [
    BuiltIn::Object,
    BuiltIn::System,
    BuiltIn::String,
    BuiltIn::PrintStream,
    BuiltIn::Throwable,
    BuiltIn::Exception,
    BuiltIn::Error,
    BuiltIn::RuntimeException,
    BuiltIn::ArithmeticException,
    BuiltIn::NullPointerException,
    BuiltIn::IndexOutOfBoundsException,
    BuiltIn::NegativeArraySizeException,
    BuiltIn::ClassCastException,
    BuiltIn::ArrayStoreException,
    BuiltIn::IllegalMonitorStateException,
    BuiltIn::IllegalArgumentException,
    BuiltIn::IllegalStateException,
    BuiltIn::UnsupportedOperationException,
    BuiltIn::ArrayIndexOutOfBoundsException,
    BuiltIn::LinkageError,
    BuiltIn::VirtualMachineError,
    BuiltIn::NoClassDefFoundError,
    BuiltIn::ExceptionInInitializerError,
    BuiltIn::IncompatibleClassChangeError,
    BuiltIn::VerifyError,
    BuiltIn::NoSuchFieldError,
    BuiltIn::NoSuchMethodError,
    BuiltIn::AbstractMethodError,
    BuiltIn::InstantiationError,
    BuiltIn::OutOfMemoryError,
    BuiltIn::StackOverflowError,
    BuiltIn::InternalError,
];

impl BuiltIn {
    /// The place of the class among the built-in ones, from 0.
    pub fn number(self) -> usize
        ensures number { result ≡ number_of self }
        ensures within { result < BUILT_IN_COUNT }
    {
        self as usize
    }

    /// The direct superclass: none for java/lang/Object.
    pub fn superclass(self) -> Option<BuiltIn>
        ensures { result ≡ superclass_of_built_in self }
    {
        match self {
            BuiltIn::Object => None,
            BuiltIn::System => Some(BuiltIn::Object),
            BuiltIn::String => Some(BuiltIn::Object),
            BuiltIn::PrintStream => Some(BuiltIn::Object),
            BuiltIn::Throwable => Some(BuiltIn::Object),
            BuiltIn::Exception => Some(BuiltIn::Throwable),
            BuiltIn::Error => Some(BuiltIn::Throwable),
            BuiltIn::RuntimeException => Some(BuiltIn::Exception),
            BuiltIn::ArithmeticException => Some(BuiltIn::RuntimeException),
            BuiltIn::NullPointerException => Some(BuiltIn::RuntimeException),
            BuiltIn::IndexOutOfBoundsException => Some(BuiltIn::RuntimeException),
            BuiltIn::NegativeArraySizeException => Some(BuiltIn::RuntimeException),
            BuiltIn::ClassCastException => Some(BuiltIn::RuntimeException),
            BuiltIn::ArrayStoreException => Some(BuiltIn::RuntimeException),
            BuiltIn::IllegalMonitorStateException => Some(BuiltIn::RuntimeException),
            BuiltIn::IllegalArgumentException => Some(BuiltIn::RuntimeException),
            BuiltIn::IllegalStateException => Some(BuiltIn::RuntimeException),
            BuiltIn::UnsupportedOperationException => Some(BuiltIn::RuntimeException),
            BuiltIn::ArrayIndexOutOfBoundsException => Some(BuiltIn::IndexOutOfBoundsException),
            BuiltIn::LinkageError => Some(BuiltIn::Error),
            BuiltIn::VirtualMachineError => Some(BuiltIn::Error),
            BuiltIn::NoClassDefFoundError => Some(BuiltIn::LinkageError),
            BuiltIn::ExceptionInInitializerError => Some(BuiltIn::LinkageError),
            BuiltIn::IncompatibleClassChangeError => Some(BuiltIn::LinkageError),
            BuiltIn::VerifyError => Some(BuiltIn::LinkageError),
            BuiltIn::NoSuchFieldError => Some(BuiltIn::IncompatibleClassChangeError),
            BuiltIn::NoSuchMethodError => Some(BuiltIn::IncompatibleClassChangeError),
            BuiltIn::AbstractMethodError => Some(BuiltIn::IncompatibleClassChangeError),
            BuiltIn::InstantiationError => Some(BuiltIn::IncompatibleClassChangeError),
            BuiltIn::OutOfMemoryError => Some(BuiltIn::VirtualMachineError),
            BuiltIn::StackOverflowError => Some(BuiltIn::VirtualMachineError),
            BuiltIn::InternalError => Some(BuiltIn::VirtualMachineError),
        }
    }

    /// The built-in class at that place. Takes no memory.
    #[tactic(auto, unfolding(crate::specs::BuiltIn::built_ins))]
    pub fn at(place: usize) -> Option<BuiltIn>
        ensures { result ≡ slice_get built_ins place }
    {
        class_in(&BUILT_INS, place)
    }

    /// The built-in class of that internal name. Takes no memory.
    pub fn named(name: &[u8]) -> Option<BuiltIn>
        ensures { result ≡ built_in_named name.now }
    {
        BuiltIn::at(place_built_in(name)?)
    }

    /// Whether a class may name it as its superclass: java/lang/Object and the throwables, which come after
    /// the first four.
    pub(crate) fn is_extensible(self) -> bool
        ensures { result ≡ may_be_superclass self }
    {
        let number = self.number();
        number == 0 || 3 < number
    }
}

fn class_in(classes: &[BuiltIn], place: usize) -> Option<BuiltIn>
    ensures { result ≡ slice_get classes.now place }
{
    classes.get(place).copied()
}

/// The name of the built-in class at that place.
#[tactic(auto, unfolding(crate::specs::BuiltIn::built_in_names, crate::specs::BuiltIn::built_ins))]
pub(crate) fn built_in_name(place: usize) -> Option<&'static [u8]>
    ensures { option_copied result ≡ slice_get built_in_names place }
{
    name_in(&BUILT_IN_NAMES, place)
}

fn name_in<'a>(names: &[&'a [u8]], place: usize) -> Option<&'a [u8]>
    ensures { option_copied result ≡ slice_get (plain names.now) place }
{
    Some(*names.get(place)?)
}

/// The place of the built-in class of that name.
#[tactic(auto, unfolding(crate::specs::BuiltIn::built_in_names, crate::specs::BuiltIn::built_ins))]
pub(crate) fn place_built_in(name: &[u8]) -> Option<usize>
    ensures place { result ≡ place_of built_in_names name.now }
    ensures within { IfSome result (λ place. place < BUILT_IN_COUNT) }
{
    place_among(&BUILT_IN_NAMES, name)
}

/// The place of the first of these names that is `name`.
fn place_among(names: &[&[u8]], name: &[u8]) -> Option<usize>
    ensures place { result ≡ place_of (plain names.now) name.now }
    ensures within { IfSome result (λ place. place < length names.now) }
{
    let mut place = 0;
    let mut rest = names;
    while let [other, after @ ..] = rest {
        if *other == name {
            return Some(place);
        }
        place += 1;
        rest = after;
    }
    None
}
