//! How far each thread may go, as the command line says it.

ghost use Rattle.std.specs.Prelude.{◌≡◌, ◌≤◌, ℕ, IfErr, IfOk, IfSome, None};
ghost use Rattle.cli.specs.declared.fault.Fault.TheVariants.{Patience, Steps};
ghost use Rattle.command_line.specs.CommandLine.{text_of};
ghost use Rattle.cli.specs.Limits.{AreLimits, IsLimitRefusal, IsNumber, IsPatience, IsSteps};

use crate::fault::Fault;
use bodies::Limits;

/// The decimal number that these digits write, and nothing else, where it fits.
fn number_of(text: &str) -> Option<u32>
    ensures number { IfSome result (IsNumber text.now) }
    ensures none { result ≡ None → (n : ℕ) → IsNumber text.now n → 4294967296 ≤ n }
{
    if let [b'+', ..] = text.as_bytes() {
        return None;
    }
    match text.parse::<u32>() {
        Ok(number) => Some(number),
        Err(_) => None,
    }
}

/// How many instructions a thread may begin, where the text of `--steps` is a decimal number from 1 to 100,000,000, or isn't given.
fn steps_of<'a>(steps: Option<&str>) -> Result<u32, Fault<'a>>
    ensures said { IfOk result (IsSteps (text_of steps.entry)) }
    ensures refused { IfErr result (λ fault. (fault ≡ Steps) × ((n : ℕ) → IsSteps (text_of steps.entry) n → ⊥)) }
{
    let Some(text) = steps else {
        return Ok(Limits::USUAL.steps);
    };
    match number_of(text) {
        Some(steps @ 1..=100_000_000) => Ok(steps),
        _ => Err(Fault::Steps),
    }
}

/// How often a thread may look at what another holds, where the text of `--patience` is a decimal number up to 1,000,000,000, or
/// isn't given.
fn patience_of<'a>(patience: Option<&str>) -> Result<u32, Fault<'a>>
    ensures said { IfOk result (IsPatience (text_of patience.entry)) }
    ensures refused { IfErr result (λ fault. (fault ≡ Patience) × ((n : ℕ) → IsPatience (text_of patience.entry) n → ⊥)) }
{
    let Some(text) = patience else {
        return Ok(Limits::USUAL.patience);
    };
    match number_of(text) {
        Some(patience) if patience <= 1_000_000_000 => Ok(patience),
        _ => Err(Fault::Patience),
    }
}

/// How far each thread may go, where the texts of `--steps` and `--patience` say it. The fault is that of the steps before that of
/// the patience.
pub(crate) fn limits_of<'a>(
    steps: Option<&str>,
    patience: Option<&str>,
) -> Result<Limits, Fault<'a>>
    ensures said { IfOk result (AreLimits (text_of steps.entry) (text_of patience.entry)) }
    ensures refused { IfErr result (IsLimitRefusal (text_of steps.entry) (text_of patience.entry)) }
{
    let steps = match steps_of(steps) {
        Ok(steps) => steps,
        Err(fault) => return Err(fault),
    };
    match patience_of(patience) {
        Ok(patience) => Ok(Limits { steps, patience }),
        Err(fault) => Err(fault),
    }
}
