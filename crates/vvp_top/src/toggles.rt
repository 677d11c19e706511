//! The report on a dump: how often its variables rise and fall.

ghost use Rattle.std.specs.Prelude.{◌≡◌, ◌⊎◌, ◌++◌, ◌^◌, length, true, false, codes, decimal, IfOk, IfErr, OnOk, OnErr};
ghost use Rattle.vcd_read.specs.Sound.{IsTrace};
ghost use Rattle.vvp_edge.specs.Causes.{Rose};
ghost use Rattle.vvp_top.specs.Ends.{CutShort, HandedOver};
ghost use Rattle.vvp_top.specs.Texts.{is_ended, yields};
ghost use Rattle.vvp_top.specs.Toggles.{toggle_line, toggle_lines, toggle_text};
ghost use Rattle.vvp_top.specs.Whole.{reported, silent, whole_of_dump};

use crate::fault::Fault;
use crate::pieces::{PIECE, send_pieces};
use crate::refusal::Why;
use crate::{Outcome, Report};
use itoa::Buffer;
use std::alloc::{AllocError, Global};
use toggle_lanes::{Row, toggles};
use vcd_read::{Trace, VcdFault, VcdVar, read_vcd};
use vvp_edge::{MOST_SOURCE, Sink};

// One count more of a line.
fn add_count(text: &mut Vec<u8>, count: u64) -> Result<(), AllocError>
    ensures { OnOk result (text.new.items ≡ text.old.items ++ (codes " " ++ decimal count)) }
{
    let mut digits = Buffer::new();
    text.extend_from_slice(b" ")?;
    text.extend_from_slice(digits.format(count).as_bytes())?;
    Ok(())
}

// One line more.
fn add_line(text: &mut Vec<u8>, var: &VcdVar, row: &Row) -> Result<(), AllocError>
    ensures { OnOk result (text.new.items ≡ text.old.items ++ toggle_line var.now row.now) }
{
    text.extend_from_slice(var.path.as_slice())?;
    add_count(text, row.rises)?;
    add_count(text, row.falls)?;
    text.extend_from_slice(b"\n")?;
    Ok(())
}

// The lines of variables with these rows.
fn toggle_lines(alloc: Global, vars: &[VcdVar], rows: &[Row]) -> Result<Vec<u8>, AllocError>
    requires { length rows.now ≡ length vars.now }
    ensures { IfOk result (λ text. text.items ≡ toggle_lines vars.now rows.now) }
{
    let mut text = Vec::new(alloc);
    for (i, row) in rows.iter().enumerate() {
        add_line(&mut text, &vars[i], row)?;
    }
    Ok(text)
}

/// Puts the report on what a dump says out: a line for each variable, in pieces of at most 65,536 bytes. What fails stops it.
pub(crate) fn report_toggles<K: Sink>(
    alloc: Global,
    trace: &Trace,
    out: &mut K,
) -> Result<(), Fault>
    requires { IsTrace (2 ^ 26) trace.now }
    ensures done { OnOk result (HandedOver (toggle_text trace.now) (K.held out.old) (K.held out.new)) }
    ensures cut { OnErr result (CutShort (toggle_text trace.now) (K.held out.old) (K.held out.new)) }
    ensures output_fault { IfErr result (λ fault. fault ≡ Fault.Output → Rose (K.faults out.old) (K.faults out.new)) }
    ensures own { IfErr result (λ fault. fault ≡ Fault.Store → ⊥) }
{
    let rows = match toggles(alloc, trace) {
        Err(_) => return Err(Fault::Memory),
        Ok(rows) => rows,
    };
    let text = match toggle_lines(alloc, trace.vars.as_slice(), &rows) {
        Err(_) => return Err(Fault::Memory),
        Ok(text) => text,
    };
    match send_pieces(out, &text, PIECE) {
        Err(_) => Err(Fault::Output),
        Ok(()) => Ok(()),
    }
}

// What a dump says. Refused where it is too large, and then at the first fault of a file that is no dump.
fn trace_of(alloc: Global, dump: &[u8]) -> Result<Trace, Outcome>
    ensures whole { IfOk result (λ trace. whole_of_dump dump.now ≡ reported Outcome.Reported (toggle_text trace)) }
    ensures of_nets { IfOk result (IsTrace (2 ^ 26)) }
    ensures refused { IfErr result (λ outcome. (outcome ≡ Outcome.Memory) ⊎ (whole_of_dump dump.now ≡ silent outcome)) }
    ensures own { IfErr result (λ outcome. (outcome ≡ Outcome.StoreFault → ⊥) × (outcome ≡ Outcome.OutputFault → ⊥) × (outcome ≡ Outcome.BadWords → ⊥)) }
{
    if dump.len() > MOST_SOURCE {
        return Err(Outcome::Refused {
            line: 0,
            why: Why::TooLarge,
        });
    }
    match read_vcd(alloc, dump) {
        Err(VcdFault::Memory) => Err(Outcome::Memory),
        Err(VcdFault::Refused { line, kind }) => Err(Outcome::Refused {
            line,
            why: Why::Dump(kind),
        }),
        Ok(trace) => Ok(trace),
    }
}

/// Reads a dump, and puts the report on it out.
pub(crate) fn report_on<K: Sink>(alloc: Global, dump: &[u8], out: &mut K) -> Result<Report, Outcome>
    ensures whole { IfOk result (λ report. let w = whole_of_dump dump.now in
        (report ≡ w.report) × HandedOver w.output (K.held out.old) (K.held out.new)) }
    ensures cut { IfErr result (λ outcome. yields outcome ≡ true → CutShort (whole_of_dump dump.now).output (K.held out.old) (K.held out.new)) }
    ensures refused { IfErr result (λ outcome. yields outcome ≡ false → (whole_of_dump dump.now ≡ silent outcome) × (K.held out.new ≡ K.held out.old)) }
    ensures output_fault { IfErr result (λ outcome. outcome ≡ Outcome.OutputFault → Rose (K.faults out.old) (K.faults out.new)) }
    ensures own { IfErr result (λ outcome. (outcome ≡ Outcome.StoreFault → ⊥) × (outcome ≡ Outcome.BadWords → ⊥)) }
    ensures ended { IfOk result (λ report. is_ended report.outcome ≡ true) }
{
    let trace = match trace_of(alloc, dump) {
        Err(outcome) => return Err(outcome),
        Ok(trace) => trace,
    };
    match report_toggles(alloc, &trace, out) {
        Err(fault) => Err(fault.outcome()),
        Ok(()) => Ok(Report::bare(Outcome::Reported)),
    }
}
