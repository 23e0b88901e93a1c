//! The program's body: what the words of its command line ask for, done over files by name.
//!
//! Enter by [`serve`]: it takes the words, something that reads and writes files by name ([`Named`]) and two
//! writers, does all that the program does, and answers the exit status. The program itself only hands in the
//! machine's files ([`MachineFiles`]) and streams, so that each of its runs is also a test over files in memory.
#![tactic(auto)]

pub mod checking;
pub mod editions;
mod explaining;
pub mod fault;
pub mod files;
pub mod limits;
pub mod machine;
pub mod needed;
pub mod orders;
pub mod outcomes;
mod reporting;
pub mod running;
pub mod serving;
pub mod sink;
pub mod stops;
mod trace_files;

pub use checking::{Judged, check_named, status_of_verdict, write_judged};
pub use fault::Fault;
pub use files::{Named, NamedFault};
pub use machine::MachineFiles;
pub use needed::write_needs;
pub use outcomes::{status_of_outcomes, write_outcomes};
pub use running::{ProgramRun, run_named};
pub use serving::serve;
pub use sink::{EmitFault, Printed, Sink, emit};
pub use stops::Stops;
