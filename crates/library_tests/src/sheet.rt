//! A caller of `serve` that knows what its files hold.

ghost use Rattle.std.specs.Prelude.{◌≡◌, [], ◌∷◌, Some, None, codes, if◌then◌else◌};
ghost use Rattle.std.specs.Str.{bytes_eq};
ghost use Rattle.jasmin_text.specs.Grammar.{Spells};
ghost use Rattle.jasmin_text.specs.Lines.{lines_of};
ghost use Rattle.jasmin_text.specs.declared.class_text.ClassParts.{ClassParts};
ghost use Rattle.hierarchy.specs.FirstFault.{LinksTo};
ghost use Rattle.hierarchy.specs.LinkedProgram.{LinkedProgram};
ghost use Rattle.trace.specs.TraceText.{trace_of};
ghost use Rattle.bodies.specs.declared.report.Limits.{Limits};
ghost use Rattle.bodies.specs.declared.report.Report.{Report};
ghost use Rattle.cli.specs.Limits.{AreLimits};
ghost use Rattle.cli.specs.Running.{IsRunOfNamed};

use cli::{Named, NamedFault, serve};
use std::alloc::{AllocError, Global};
use std::sync::Wait;
use std::thread::Threads;

/// Two files: a class by the name `sheet`, and by the name `trace` a trace. There is no other, and only the trace can be written.
#[derive(Drop)]
struct Sheet {
    class: Vec<u8>,
    trace: Vec<u8>,
}

impl Named for Sheet {
    ghost use Rattle.std.specs.Prelude.{Some, None, codes, if◌then◌else◌};
    ghost use Rattle.std.specs.Str.{bytes_eq};

    ghost held = { λ sheet. Some (λ name. if bytes_eq name (codes "trace") then Some sheet.trace.items else (if bytes_eq name (codes "sheet") then Some sheet.class.items else None)) };

    fn read(&mut self, alloc: Global, name: &str, most: usize) -> Result<Vec<u8>, NamedFault> {
        let bytes = if name == "trace" {
            &self.trace
        } else if name == "sheet" {
            &self.class
        } else {
            return Err(NamedFault::Io);
        };
        let kept = bytes.len().min(most);
        match Vec::from_slice(alloc, &bytes[..kept]) {
            Ok(bytes) => Ok(bytes),
            Err(_) => Err(NamedFault::Memory),
        }
    }

    fn write(&mut self, name: &str, bytes: &[u8]) -> Result<(), NamedFault> {
        if name != "trace" {
            return Err(NamedFault::Io);
        }
        self.trace.clear();
        match self.trace.extend_from_slice(bytes) {
            Ok(()) => Ok(()),
            Err(_) => Err(NamedFault::Memory),
        }
    }
}

static WORDS: [&str; 7] = [
    "jinit", "run", "--mains", "Solo", "--trace", "trace", "sheet",
];

/// Runs the class Solo that the sheet spells, and writes the trace beside it.
fn trace_the_sheet<R: Threads + Wait + Sync>(rt: &R, alloc: Global, sheet: &mut Sheet) -> u8
    ensures { result ≡ 0 → (c : ClassParts) × (p : LinkedProgram) × (l : Limits) × (r : Report) × Spells (lines_of sheet.old.class.items) c
        × LinksTo (c ∷ []) p × AreLimits None None l × IsRunOfNamed (Some (codes "Solo")) None l p r × (sheet.new.trace.items ≡ trace_of p r.events) }
{
    let mut out = Vec::new(alloc);
    let mut err = Vec::new(alloc);
    serve(rt, alloc, WORDS.as_slice(), sheet, &mut out, &mut err)
}

/// Whether the trace of Solo is written beside its class.
fn has_its_trace<R: Threads + Wait + Sync>(rt: &R, alloc: Global) -> Result<bool, AllocError> {
    let mut sheet = Sheet {
        class: Vec::from_slice(alloc, b".class Solo")?,
        trace: Vec::new(alloc),
    };
    let status = trace_the_sheet(rt, alloc, &mut sheet);
    let trace = b"0 t0 step6 Solo\n1 t0 step9 Solo\n2 t0 step10 Solo\n".as_slice();
    Ok(status == 0 && sheet.trace.as_slice() == trace)
}

#[test]
fn a_class_has_its_trace(rt: HostRuntime) {
    assert!(rt; has_its_trace(&rt, rt.alloc()) == Ok(true));
}
