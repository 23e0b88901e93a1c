//! What events print.

ghost use Rattle.std.specs.Prelude.{◌≡◌, ◌++◌, IfOk};
ghost use Rattle.bodies.specs.Output.{output_in, output_of};

use init_core::Event;
use sequence::{Sequence, Text};
use std::alloc::{AllocError, Global};

/// What an event prints, added to the output. An `Err` means out of memory.
fn add_output(output: &mut Vec<u8>, event: &Event) -> Result<(), AllocError>
    ensures { IfOk result (λ _. output.new.items ≡ output.old.items ++ output_in event.now.kind) }
{
    if let Some(text) = event.text() {
        output.extend_from_slice(text)?;
    }
    Ok(())
}

/// What the events print, in order: the texts one after the other. An `Err` means out of memory.
pub fn printed_by(alloc: Global, events: &[Event]) -> Result<Text, AllocError>
    ensures { IfOk result (λ output. output ≡ output_of events.now) }
{
    let mut output = Vec::new(alloc);
    for event in events {
        add_output(&mut output, event)?;
    }
    Ok(Sequence::from_vec(output))
}
