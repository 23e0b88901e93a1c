//! What calls of the methods of java/io/PrintStream come to.

ghost use Rattle.std.specs.Prelude.{◌≡◌, ◌↔◌, IsTrue};
ghost use Rattle.frames.specs.Activations.{operands_of};
ghost use Rattle.interpreter.specs.Leads.{IsStream, PrintsBy, print_lead, receiver_at};
ghost use Rattle.interpreter.specs.Printing.{IsPrintable, IsPrintableBy, printed_count};

use crate::fitting::built_in_type;
use crate::lead::{Lead, NULL, VERIFY, when};
use frames::{Cell, Frames};
use heap::Heap;
use hierarchy::{BuiltIn, BuiltInMethod, Printed, Program};

/// Whether an operand may be printed.
fn is_printable(program: &Program, printed: Printed, value: Option<Cell>) -> bool
    ensures { IsTrue result ↔ IsPrintable program.now printed value }
{
    match (printed, value) {
        (Printed::Text, Some(Cell::Null)) => true,
        (Printed::Text, Some(Cell::Reference(number))) => program.text_at(number).is_some(),
        (Printed::Text, _) => false,
        (_, Some(Cell::Int(_))) => true,
        _ => false,
    }
}

fn is_printable_by(program: &Program, method: BuiltInMethod, value: Option<Cell>) -> bool
    ensures { IsTrue result ↔ IsPrintableBy program.now method value }
{
    match method {
        BuiltInMethod::Print(printed) | BuiltInMethod::PrintLine(printed) => {
            is_printable(program, printed, value)
        }
        BuiltInMethod::PrintLineAlone | BuiltInMethod::Init => true,
        BuiltInMethod::InitWithText => false,
    }
}

/// The receiver of a method of java/io/PrintStream.
fn receiver(frames: &Frames, method: BuiltInMethod) -> Option<Cell>
    ensures { result ≡ receiver_at (operands_of frames.now) (printed_count method) }
{
    match method {
        BuiltInMethod::Print(_) | BuiltInMethod::PrintLine(_) => frames.operand(1),
        BuiltInMethod::PrintLineAlone | BuiltInMethod::Init => frames.operand(0),
        BuiltInMethod::InitWithText => None,
    }
}

/// Whether a value refers to a java/io/PrintStream.
fn is_stream(heap: &Heap, program: &Program, value: Option<Cell>) -> bool
    ensures { IsTrue result ↔ IsStream program.now heap.now value }
{
    match value {
        Some(Cell::Reference(number)) => {
            heap.fits(
                program,
                built_in_type(program, BuiltIn::PrintStream),
                number,
            )
        }
        _ => false,
    }
}

fn print_by(printable: bool, is: bool, method: BuiltInMethod, receiver: Option<Cell>) -> Lead
    ensures { result ≡ print_lead printable is method receiver }
{
    if !printable {
        return VERIFY;
    }
    match receiver {
        Some(Cell::Null) => NULL,
        _ => when(is, Lead::Prints(method)),
    }
}

pub(crate) fn print(frames: &Frames, heap: &Heap, program: &Program, method: BuiltInMethod) -> Lead
    ensures { PrintsBy program.now heap.now frames.now method result }
{
    let printable = is_printable_by(program, method, frames.operand(0));
    let receiver = receiver(frames, method);
    print_by(
        printable,
        is_stream(heap, program, receiver),
        method,
        receiver,
    )
}
