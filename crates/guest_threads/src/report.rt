//! The report of a run, from what all threads gave back.

ghost use Rattle.std.specs.Prelude.{◌≡◌, IfOk, map};
ghost use Rattle.std.specs.List.{AllByRecursion};
ghost use Rattle.init_core.specs.Label.{label_of};
ghost use Rattle.init_core.specs.Lawful.{IsLawful};
ghost use Rattle.guest_threads.specs.AllWork.{AreBack, IsReportOf};

use crate::guarded::Guarded;
use crate::work::Worked;
use bodies::{Bodies, Report, ThreadOutcome, printed_by};
use init_core::Label;
use init_lock::{Closed, InitTable, Pass, merge};
use sequence::Sequence;
use std::alloc::{AllocError, Global};

/// The label of each record. Each record shows that its history is lawful. An `Err` means out of memory.
fn labels(alloc: Global, records: &[Guarded]) -> Result<Sequence<Label>, AllocError>
    ensures labels { IfOk result (λ labels. labels ≡ map (λ r. label_of r.record.events) records.now) }
    ensures lawful { IfOk result (λ labels. AllByRecursion (λ r. IsLawful r.record.fields r.record.events) records.now) }
{
    let mut labels = Sequence::new(alloc);
    for guarded in records {
        guarded.record.is_lawful();
        labels.push(guarded.record.label())?;
    }
    Ok(labels)
}

/// The passes and the outcomes apart. An `Err` means out of memory.
fn separated(
    alloc: Global,
    done: Vec<Worked>,
) -> Result<(Vec<Pass<Guarded>>, Sequence<ThreadOutcome>), AllocError>
    ensures passes { IfOk result (λ r. r.0.items ≡ map (λ w. w.pass) done.items) }
    ensures outcomes { IfOk result (λ r. r.1 ≡ map (λ w. w.outcome) done.items) }
{
    let mut passes = Vec::new(alloc);
    let mut outcomes = Sequence::new(alloc);
    for worked in done {
        let Worked { pass, outcome } = worked;
        passes.push(pass)?;
        outcomes.push(outcome)?;
    }
    Ok((passes, outcomes))
}

/// The report of a run that is over, with the events in the order of their stamps. An `Err` means out of memory.
///
/// The records go before the journals are merged, so that their memory serves for the list.
pub(crate) fn report<B: Bodies>(
    alloc: Global,
    table: InitTable<Guarded>,
    done: Vec<Worked>,
) -> Result<Report, AllocError>
    requires back { AreBack table done.items }
    ensures reports { IfOk result (IsReportOf B.making table done.items) }
{
    let (passes, outcomes) = separated(alloc, done)?;
    let Closed { records, journals } = table.finish(passes);
    let labels = labels(alloc, records.as_slice())?;
    drop(records);
    let events = merge(alloc, journals)?;
    let output = printed_by(alloc, events.as_slice())?;
    Ok(Report {
        outcomes,
        events: Sequence::from_vec(events),
        labels,
        output,
    })
}
