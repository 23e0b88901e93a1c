//! By which edition of JVMS classes are initialized, as the command line says it.

ghost use Rattle.std.specs.Prelude.{◌≡◌, IfErr, IfOk, Some};
ghost use Rattle.cli.specs.Editions.{IsEditionRefusal, edition_in};
ghost use Rattle.command_line.specs.CommandLine.{text_of};

use crate::fault::Fault;
use hierarchy::Edition;

/// The edition that the text of `--edition` says: 7 or 8, and 8 where it isn't given.
pub(crate) fn edition_of<'a>(edition: Option<&str>) -> Result<Edition, Fault<'a>>
    ensures said { IfOk result (λ said. edition_in (text_of edition.entry) ≡ Some said) }
    ensures refused { IfErr result (IsEditionRefusal (text_of edition.entry)) }
{
    let Some(text) = edition else {
        return Ok(Edition::Eight);
    };
    if text == "7" {
        return Ok(Edition::Seven);
    }
    if text == "8" {
        return Ok(Edition::Eight);
    }
    Err(Fault::Edition)
}
