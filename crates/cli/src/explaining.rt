//! What explains a fault, and what codes mean.
//!
//! A fault is reported by one fixed line. Where `--explain` is given, words come after it, for which the files are read once more.

ghost use Rattle.std.specs.Prelude.{◌≡◌, ℕ, List, [], None, Option, Some, IfErr, IfOk, OnOk, false};
ghost use Rattle.std.specs.Option.{option_map};
ghost use Rattle.std.specs.Io.KnownBytes.{Keeps};
ghost use Rattle.clap.specs.Walk.{texts};
ghost use Rattle.command_line.specs.CommandLine.{explain as explain_request, explains_in, request_of};
ghost use Rattle.cli.specs.CutShort.{IsStopped};
ghost use Rattle.cli.specs.Files.{Files, KeepsAllBut};
ghost use Rattle.cli.specs.Refusals.{IsExplainFault};
ghost use Rattle.cli.specs.Explained.{explanation_of, texts_of_codes};
ghost use Rattle.cli.specs.Serving.{HasExplained, around};
ghost use Rattle.cli.specs.Status.{status_of};

use crate::fault::Fault;
use crate::files::{MOST_BYTES, Named};
use crate::reporting::write_output;
use command_line::Asked;
use explanations::{
    Source, code_list, code_text, explain_edition, explain_files, explain_linking, explain_mains,
    explain_order, explain_patience, explain_reading, explain_steps, explain_trace,
};
use std::alloc::{AllocError, Global};
use std::io;

/// What is said of these codes, one after the other; `None` where one of them is no code.
fn texts_of_names(alloc: Global, names: &[&str]) -> Result<Option<Vec<u8>>, AllocError>
    ensures { IfOk result (λ text. option_map (λ all. all.items) text ≡ texts_of_codes (texts names.now)) }
{
    let mut text = Vec::new(alloc);
    let mut rest = names;
    while let [name, after @ ..] = rest {
        let Some(one) = code_text(name) else {
            return Ok(None);
        };
        text.extend_from_slice(one)?;
        rest = after;
    }
    Ok(Some(text))
}

/// The same, but of no codes the list of all.
fn explanation<'a>(alloc: Global, names: &[&str]) -> Result<Vec<u8>, Fault<'a>>
    ensures said { IfOk result (λ text. explanation_of (texts names.now) ≡ Some text.items) }
    ensures refused { IfErr result (IsExplainFault (texts names.now)) }
{
    if names.is_empty() {
        let list = Vec::from_slice(alloc, code_list())?;
        return Ok(list);
    }
    match texts_of_names(alloc, names)? {
        Some(text) => Ok(text),
        None => Err(Fault::Code),
    }
}

/// Writes what these codes mean, or the list of codes.
pub(crate) fn tell_codes<'a, O: io::Write>(
    alloc: Global,
    names: &[&str],
    out: &mut O,
) -> Result<(), Fault<'a>>
    ensures told { OnOk result (HasExplained (O.contents out.old) (O.contents out.new) (texts names.now)) }
    ensures stopped { IfErr result (λ f. (files : Option Files) (errors : Option (List ℕ)) → IsStopped (around files (O.contents out.old)) (around files (O.contents out.new))
        errors errors (explain_request (texts names.now)) f) }
    ensures untouched { IfErr result (λ f. status_of f ≡ 2 → Keeps (O.contents out.old) (O.contents out.new)) }
    ensures refused { IfErr result (λ f. status_of f ≡ 2 → IsExplainFault (texts names.now) f) }
{
    match explanation(alloc, names) {
        Ok(text) => write_output(out, &text),
        Err(fault) => Err(fault),
    }
}

/// Whether a fault is to be explained.
fn explains(asked: &Asked<'_>) -> bool
    ensures { result ≡ explains_in (request_of asked.now) }
{
    match asked {
        Asked::Run(words) => words.explains,
        Asked::Check(words) => words.explains,
        Asked::Needs(words) => words.explains,
        Asked::Explain(_) => false,
        Asked::Unfit { explains, .. } => *explains,
    }
}

/// The names of the Jasmin files that are asked for.
fn files_of<'w, 'a>(asked: &'w Asked<'a>) -> &'w [&'a str] {
    match asked {
        Asked::Run(words) => &words.files,
        Asked::Check(words) => &words.files,
        Asked::Needs(words) => &words.files,
        Asked::Explain(_) | Asked::Unfit { .. } => &[],
    }
}

/// The text of `--mains`.
fn mains_of<'a>(asked: &Asked<'a>) -> Option<&'a str> {
    match asked {
        Asked::Run(words) => words.mains,
        Asked::Check(words) => words.mains,
        Asked::Needs(_) | Asked::Explain(_) | Asked::Unfit { .. } => None,
    }
}

/// The text of `--edition`.
fn edition_of<'a>(asked: &Asked<'a>) -> Option<&'a str> {
    match asked {
        Asked::Run(words) => words.edition,
        Asked::Check(words) => words.edition,
        Asked::Needs(words) => words.edition,
        Asked::Explain(_) | Asked::Unfit { .. } => None,
    }
}

/// What doesn't fit together.
fn reason_of(asked: &Asked<'_>) -> &'static str {
    match asked {
        Asked::Unfit { reason, .. } => reason,
        _ => command_line::REPLACES_INPUT,
    }
}

/// The bytes of a file, one more at most than a file may have; none where it can't be read.
fn bytes_of<N: Named>(alloc: Global, name: &str, most: usize, named: &mut N) -> Vec<u8>
    ensures { KeepsAllBut None (N.held named.old) (N.held named.new) }
{
    match named.read(alloc, name, most) {
        Ok(bytes) => bytes,
        Err(_) => Vec::new(alloc),
    }
}

/// The bytes of these files, up to the first that is too large.
fn texts_of<N: Named>(
    alloc: Global,
    files: &[&str],
    named: &mut N,
) -> Result<Vec<Vec<u8>>, AllocError>
    ensures { KeepsAllBut None (N.held named.old) (N.held named.new) }
{
    let mut read = Vec::new(alloc);
    for file in files {
        let bytes = bytes_of(alloc, file, MOST_BYTES + 1, named);
        let is_large = bytes.len() > MOST_BYTES;
        read.push(bytes)?;
        if is_large {
            break;
        }
    }
    Ok(read)
}

/// The files with their bytes.
fn sources_of<'a>(
    alloc: Global,
    files: &[&'a str],
    read: &'a [Vec<u8>],
) -> Result<Vec<Source<'a>>, AllocError> {
    let mut sources = Vec::new(alloc);
    for (name, text) in files.iter().zip(read) {
        sources.push(Source { name, text })?;
    }
    Ok(sources)
}

/// What explains that options don't go together.
fn explain_words(alloc: Global, reason: &str) -> Result<Vec<u8>, AllocError> {
    let mut text = Vec::from_slice(alloc, reason.as_bytes())?;
    text.extend_from_slice(b"\n`jinit explain words` says more\n")?;
    Ok(text)
}

/// What explains that there are too many files, or that the last of those that were read is too large.
fn explain_size(
    alloc: Global,
    count: usize,
    sources: &[Source<'_>],
) -> Result<Vec<u8>, AllocError> {
    match sources {
        [.., last] if last.text.len() > MOST_BYTES => {
            explain_files(alloc, count, Some((last.name, last.text.len())))
        }
        _ => explain_files(alloc, count, None),
    }
}

/// What explains a fault of an option.
fn explain_option(
    alloc: Global,
    fault: &Fault<'_>,
    asked: &Asked<'_>,
) -> Result<Vec<u8>, AllocError> {
    let (order, steps, patience) = match asked {
        Asked::Run(words) => (words.order, words.steps, words.patience),
        _ => (None, None, None),
    };
    match fault {
        Fault::Order => explain_order(alloc, order.unwrap_or(""), mains_of(asked)),
        Fault::Steps => explain_steps(alloc, steps.unwrap_or("")),
        Fault::Patience => explain_patience(alloc, patience.unwrap_or("")),
        Fault::Edition => explain_edition(alloc, edition_of(asked).unwrap_or("")),
        _ => explain_words(alloc, reason_of(asked)),
    }
}

/// What explains a fault of the classes or of a trace, whose bytes are these.
fn explain_classes(
    alloc: Global,
    fault: &Fault<'_>,
    asked: &Asked<'_>,
    sources: &[Source<'_>],
    trace: &[u8],
) -> Result<Vec<u8>, AllocError> {
    match fault {
        Fault::Files => explain_size(alloc, files_of(asked).len(), sources),
        Fault::Link(fault) => explain_linking(alloc, sources, fault.class.as_slice(), fault.kind),
        Fault::Trace { file, fault } => {
            let source = Source {
                name: file,
                text: trace,
            };
            explain_trace(
                alloc,
                &source,
                fault.line,
                fault.kind,
                sources,
                mains_of(asked),
            )
        }
        _ => explain_mains(alloc, sources, mains_of(asked)),
    }
}

/// The same, over the files as they are read once more.
fn explain_read<N: Named>(
    alloc: Global,
    fault: &Fault<'_>,
    asked: &Asked<'_>,
    named: &mut N,
) -> Result<Vec<u8>, AllocError>
    ensures { KeepsAllBut None (N.held named.old) (N.held named.new) }
{
    let trace = match fault {
        Fault::Trace { file, .. } => bytes_of(alloc, file, trace_reader::MOST_BYTES, named),
        _ => Vec::new(alloc),
    };
    let files = files_of(asked);
    let read = texts_of(alloc, files, named)?;
    let sources = sources_of(alloc, files, &read)?;
    explain_classes(alloc, fault, asked, &sources, &trace)
}

/// What explains a fault.
fn explained<N: Named>(
    alloc: Global,
    fault: &Fault<'_>,
    asked: &Asked<'_>,
    named: &mut N,
) -> Result<Vec<u8>, AllocError>
    ensures { KeepsAllBut None (N.held named.old) (N.held named.new) }
{
    match fault {
        Fault::Jasmin { file, fault } => {
            let text = bytes_of(alloc, file, MOST_BYTES, named);
            let source = Source {
                name: file,
                text: &text,
            };
            explain_reading(alloc, &source, fault.line, fault.kind)
        }
        Fault::Files | Fault::Link(_) | Fault::Trace { .. } | Fault::Mains => {
            explain_read(alloc, fault, asked, named)
        }
        _ => explain_option(alloc, fault, asked),
    }
}

/// What comes after the line of a fault: words that explain it, where that is asked for. None where memory is refused to them.
pub(crate) fn words_for<N: Named>(
    alloc: Global,
    fault: &Fault<'_>,
    asked: &Asked<'_>,
    named: &mut N,
) -> Vec<u8>
    ensures quiet { explains_in (request_of asked.now) ≡ false → result.items ≡ [] }
    ensures files { KeepsAllBut None (N.held named.old) (N.held named.new) }
{
    if !explains(asked) {
        return Vec::new(alloc);
    }
    match explained(alloc, fault, asked, named) {
        Ok(text) => text,
        Err(_) => Vec::new(alloc),
    }
}
