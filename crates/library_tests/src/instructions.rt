//! What an instruction takes, and operands in memory of their own.

use jasmin_text::{Boxed, Instruction};
use sequence::Text;
use std::alloc::{AllocError, Global};
use std::mem::size_of;

fn is_boxed(alloc: Global, bytes: &[u8]) -> Result<bool, AllocError> {
    let operand = Text::copied(alloc, bytes)?;
    let boxed = Boxed::new(alloc, operand)?;
    Ok(boxed.get().as_slice() == bytes && boxed.into_value().as_slice() == bytes)
}

#[test]
fn operands_in_memory_of_their_own(rt: HostRuntime) {
    assert!(rt; is_boxed(rt.alloc(), b"java/lang/Object") == Ok(true));
}

#[test]
fn an_instruction_takes_24_bytes(rt: HostRuntime) {
    assert!(rt; size_of::<Instruction<u16>>() == 24);
}
