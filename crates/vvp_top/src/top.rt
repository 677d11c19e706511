//! The top call.

ghost use Rattle.std.specs.Prelude.{◌≡◌, ◌⊎◌, ◌≤◌, true, false, None, Some, map, string_bytes, IfOk, IfErr, IfSome};
ghost use Rattle.vvp_edge.specs.Causes.{Rose};
ghost use Rattle.vvp_words.specs.Entries.{entries};
ghost use Rattle.vvp_words.specs.Seen.{seen};
ghost use Rattle.vvp_top.specs.Ends.{CutFiles, CutShort, HandedOver, LeavesFiles, Says};
ghost use Rattle.vvp_top.specs.Texts.{is_ended, may_come_anytime, message_at, own_message, status_of, yields};
ghost use Rattle.vvp_top.specs.Whole.{counts_of, silent, whole, whole_of_run, whole_of_source};

use crate::activity::report_activity;
use crate::delivery::run_engine;
use crate::load::{Runner, load};
use crate::outcome::ended;
use crate::source::source_of;
use crate::toggles::report_on;
use crate::verdict::program_of;
use crate::{Counts, Outcome, Report};
use std::alloc::Global;
use vvp_edge::{Sink, Store};
use vvp_words::{Entries, WordsFault, Work, read_words};

// The counts of a run, where they are wanted.
fn counts_of(engine: &Runner, stats: bool) -> Option<Counts>
    ensures { result ≡ counts_of stats engine.now.machine }
{
    if stats {
        Some(Counts {
            time: engine.now(),
            steps: engine.steps(),
            peak: engine.peak(),
        })
    } else {
        None
    }
}

// Runs the program of a source, if it has one, and hands its output and its dump over.
fn run_source<S: Store, K: Sink>(
    alloc: Global,
    source: &[u8],
    entries: &Entries,
    store: &mut S,
    out: &mut K,
) -> Result<Report, Outcome>
    ensures whole { IfOk result (λ report. let w = whole_of_run (seen entries.now) source.now in
        (report ≡ w.report) × HandedOver w.output (K.held out.old) (K.held out.new) × LeavesFiles w.dump (S.files store.old) (S.files store.new)) }
    ensures cut { IfErr result (λ outcome. yields outcome ≡ true → let w = whole_of_run (seen entries.now) source.now in
        CutShort w.output (K.held out.old) (K.held out.new) × CutFiles w.dump (S.files store.old) (S.files store.new)) }
    ensures refused { IfErr result (λ outcome. yields outcome ≡ false → (whole_of_run (seen entries.now) source.now ≡ silent outcome)
        × (K.held out.new ≡ K.held out.old) × (S.files store.new ≡ S.files store.old)) }
    ensures store_fault { IfErr result (λ outcome. outcome ≡ Outcome.StoreFault → Rose (S.faults store.old) (S.faults store.new)) }
    ensures output_fault { IfErr result (λ outcome. outcome ≡ Outcome.OutputFault → Rose (K.faults out.old) (K.faults out.new)) }
    ensures own { IfErr result (λ outcome. outcome ≡ Outcome.BadWords → ⊥) }
    ensures run { IfOk result (λ report. is_ended report.outcome ≡ true) }
    ensures later { S.faults store.old ≤ S.faults store.new }
{
    let program = match program_of(alloc, source) {
        Err(outcome) => return Err(outcome),
        Ok(program) => program,
    };
    let mut engine = match load(alloc, program, entries.order) {
        Err(_) => return Err(Outcome::Memory),
        Ok(engine) => engine,
    };
    match run_engine(&mut engine, entries.budget, store, out) {
        Err(fault) => Err(fault.outcome()),
        Ok(ending) => Ok(Report {
            outcome: ended(ending),
            counts: counts_of(&engine, entries.stats),
        }),
    }
}

// Does with a source what the words say: runs its program, reports on it as on a dump, or on the dump of its program.
fn work_on<S: Store, K: Sink>(
    alloc: Global,
    source: &[u8],
    entries: &Entries,
    store: &mut S,
    out: &mut K,
) -> Result<Report, Outcome>
    ensures whole { IfOk result (λ report. let w = whole_of_source (seen entries.now) source.now in
        (report ≡ w.report) × HandedOver w.output (K.held out.old) (K.held out.new) × LeavesFiles w.dump (S.files store.old) (S.files store.new)) }
    ensures cut { IfErr result (λ outcome. yields outcome ≡ true → let w = whole_of_source (seen entries.now) source.now in
        CutShort w.output (K.held out.old) (K.held out.new) × CutFiles w.dump (S.files store.old) (S.files store.new)) }
    ensures refused { IfErr result (λ outcome. yields outcome ≡ false → (whole_of_source (seen entries.now) source.now ≡ silent outcome)
        × (K.held out.new ≡ K.held out.old) × (S.files store.new ≡ S.files store.old)) }
    ensures store_fault { IfErr result (λ outcome. outcome ≡ Outcome.StoreFault → Rose (S.faults store.old) (S.faults store.new)) }
    ensures output_fault { IfErr result (λ outcome. outcome ≡ Outcome.OutputFault → Rose (K.faults out.old) (K.faults out.new)) }
    ensures own { IfErr result (λ outcome. outcome ≡ Outcome.BadWords → ⊥) }
    ensures run { IfOk result (λ report. is_ended report.outcome ≡ true) }
    ensures later { S.faults store.old ≤ S.faults store.new }
{
    match entries.work {
        Work::File(_) | Work::Workload(_) => run_source(alloc, source, entries, store, out),
        Work::Toggles(_) => report_on(alloc, source, out),
        Work::Activity(_) => report_activity(alloc, source, entries, out),
    }
}

// All but the messages.
fn perform<S: Store, K: Sink>(alloc: Global, words: &[String], store: &mut S, out: &mut K) -> Report
    ensures bad_words { result.outcome ≡ Outcome.BadWords → entries (map string_bytes words.now) ≡ None }
    ensures refused { entries (map string_bytes words.now) ≡ None →
        ((result.outcome ≡ Outcome.BadWords) ⊎ (result.outcome ≡ Outcome.Memory)) × (store.new ≡ store.old) × (out.new ≡ out.old) }
    ensures store_fault { result.outcome ≡ Outcome.StoreFault → Rose (S.faults store.old) (S.faults store.new) }
    ensures output_fault { result.outcome ≡ Outcome.OutputFault → Rose (K.faults out.old) (K.faults out.new) }
    ensures whole { yields result.outcome ≡ false → IfSome (S.files store.old) (λ files. let w = whole (map string_bytes words.now) files in
        (result ≡ w.report) × HandedOver w.output (K.held out.old) (K.held out.new) × LeavesFiles w.dump (S.files store.old) (S.files store.new)) }
    ensures cut { yields result.outcome ≡ true → IfSome (S.files store.old) (λ files. let w = whole (map string_bytes words.now) files in
        CutShort w.output (K.held out.old) (K.held out.new) × CutFiles w.dump (S.files store.old) (S.files store.new)) }
    ensures bare { is_ended result.outcome ≡ false → result.counts ≡ None }
{
    let entries = match read_words(alloc, words) {
        Err(WordsFault::Refused) => return Report::bare(Outcome::BadWords),
        Err(WordsFault::Memory) => return Report::bare(Outcome::Memory),
        Ok(entries) => entries,
    };
    let source = match source_of(alloc, &entries.work, store) {
        Err(outcome) => return Report::bare(outcome),
        Ok(source) => source,
    };
    match work_on(alloc, &source, &entries, store, out) {
        Err(outcome) => Report::bare(outcome),
        Ok(report) => report,
    }
}

/// The program without its runtime: runs the file, or the workload, that the words name, hands over its output and its dump while it
/// runs, and says the lines of its status. In the mode `toggles` it runs nothing, and puts out how often the variables of a dump rise
/// and fall. In the mode `activity` it runs the file, leaves out its output, makes no file for its dump, and puts out the same of the
/// dump; the status is that of the run. Answers the status.
///
/// `words` leaves out the program's name. The statuses are those of `Outcome`. In the mode `workload` no file is asked for.
pub fn vvp_main<S: Store, K: Sink, M: Sink>(
    alloc: Global,
    words: &[String],
    store: &mut S,
    out: &mut K,
    errs: &mut M,
) -> u8
    // The words clause: status 1 comes only where the words are refused, and then nothing was touched.
    ensures bad_words { result ≡ 1 → entries (map string_bytes words.now) ≡ None }
    ensures refused { entries (map string_bytes words.now) ≡ None →
        ((result ≡ 1) ⊎ (result ≡ 7)) × (store.new ≡ store.old) × (out.new ≡ out.old) }
    // The fault clause: statuses 5 and 6 come only where the store, or the output, failed in this call.
    ensures store_fault { result ≡ 5 → Rose (S.faults store.old) (S.faults store.new) }
    ensures output_fault { result ≡ 6 → Rose (K.faults out.old) (K.faults out.new) }
    // The exact clause: on every other status the words and the files decide status, output and files.
    ensures exact { may_come_anytime result ≡ false → IfSome (S.files store.old) (λ files. let w = whole (map string_bytes words.now) files in
        (result ≡ status_of w.report.outcome) × HandedOver w.output (K.held out.old) (K.held out.new) × LeavesFiles w.dump (S.files store.old) (S.files store.new)) }
    // The prefix clause: on statuses 5, 6 and 7 the output is cut short, and so is the dump, if it was begun.
    ensures prefix { may_come_anytime result ≡ true → IfSome (S.files store.old) (λ files. let w = whole (map string_bytes words.now) files in
        CutShort w.output (K.held out.old) (K.held out.new) × CutFiles w.dump (S.files store.old) (S.files store.new)) }
    // The error-line clause: what is said is the status's own line, or the lines of what words and files say.
    ensures own_line { IfSome (own_message result) (λ text.
        Says text (M.held errs.old) (M.held errs.new) (M.faults errs.old) (M.faults errs.new)) }
    ensures line { IfSome (S.files store.old) (λ files.
        Says (message_at result (whole (map string_bytes words.now) files).report) (M.held errs.old) (M.held errs.new) (M.faults errs.old) (M.faults errs.new)) }
    // Completeness: where neither failed, nothing but want of memory keeps the program from its end.
    ensures complete { (Rose (S.faults store.old) (S.faults store.new) → ⊥) → (Rose (K.faults out.old) (K.faults out.new) → ⊥) →
        IfSome (S.files store.old) (λ files. let w = whole (map string_bytes words.now) files in
        (result ≡ 7) ⊎ ((result ≡ status_of w.report.outcome) × HandedOver w.output (K.held out.old) (K.held out.new) × LeavesFiles w.dump (S.files store.old) (S.files store.new))) }
{
    let report = perform(alloc, words, store, out);
    report.say(errs);
    report.outcome.status()
}
