//! The types of methods.

ghost use Rattle.std.specs.Prelude.{◌≡◌, ◌≤◌, length};
ghost use Rattle.std.specs.Option.{option_copied};

use crate::field::FieldType;
use sequence::Sequence;
use std::marker::Model;

/// The type of a method (JVMS SE 8 4.3.3): at most 255 parameters, and a result or none, which is void.
///
/// Contracts see it as a `Signature`: the list of the parameters and the optional result.
pub struct MethodType {
    parameters: Sequence<FieldType>,
    result: Option<FieldType>,
}

impl Drop for MethodType {
    fn drop(self) {
        let Self {
            parameters: _,
            result: _,
        } = self;
    }
}

impl Model for MethodType {
    ghost use Rattle.std.specs.Prelude.{◌≤◌, length};
    ghost use Rattle.descriptors.specs.Signature.{Signature};

    ghost Value = { Signature };

    ghost view = { λ m. record { parameters = m.parameters; result = m.result } };

    ghost invariant = { λ m. length m.parameters ≤ 255 };
}

impl MethodType {
    /// The type with these parameters and this result, `None` for void. Takes no memory.
    pub fn new(parameters: Sequence<FieldType>, outcome: Option<FieldType>) -> Self
        requires { length parameters ≤ 255 }
        ensures { result ≡ record { parameters = parameters; result = outcome } }
    {
        MethodType {
            parameters,
            result: outcome,
        }
    }

    /// The types of the parameters in order, at most 255.
    pub fn parameters(&self) -> &[FieldType]
        ensures parameters { result.now ≡ self.now.parameters }
        ensures limit { length self.now.parameters ≤ 255 }
    {
        self.parameters.as_slice()
    }

    /// The type of the result, `None` for void.
    pub fn result(&self) -> Option<&FieldType>
        ensures { option_copied result ≡ self.now.result }
    {
        self.result.as_ref()
    }
}
