//! The source that the words name.

ghost use Rattle.std.specs.Prelude.{◌≡◌, ◌≤◌, ℕ, false, Some, IfOk, IfErr, IfSome, List};
ghost use Rattle.std.specs.FinMap as map;
ghost use Rattle.vvp_edge.specs.Causes.{Rose};
ghost use Rattle.vvp_edge.specs.Files.{Files};
ghost use Rattle.vvp_words.specs.Entries.{Entries as Said};
ghost use Rattle.vvp_words.specs.Seen.{seen_work};
ghost use Rattle.vvp_words.specs.Sizes.{IsSized};
ghost use Rattle.vvp_top.specs.Texts.{yields};
ghost use Rattle.vvp_top.specs.Whole.{silent, source_of, whole_of_found};

use crate::Outcome;
use crate::refusal::Why;
use std::alloc::Global;
use vvp_edge::{ReadFault, Store, read_source};
use vvp_words::Work;
use work_gen::workload;

// Opens the file of this name and reads it to its end. The files stay.
fn open_source<S: Store>(alloc: Global, name: &[u8], store: &mut S) -> Result<Vec<u8>, Outcome>
    ensures bytes { IfOk result (λ v. IfSome (S.files store.old) (λ files. map.get files name.now ≡ Some v.items)) }
    // What is answered in the place of the bytes, unless it is a fault or want of memory.
    ensures refused { IfErr result (λ outcome. yields outcome ≡ false → IfSome (S.files store.old) (λ files. (e : Said) → whole_of_found e (map.get files name.now) ≡ silent outcome)) }
    ensures fault { IfErr result (λ outcome. outcome ≡ Outcome.StoreFault → Rose (S.faults store.old) (S.faults store.new)) }
    ensures own { IfErr result (λ outcome. (outcome ≡ Outcome.OutputFault → ⊥) × (outcome ≡ Outcome.BadWords → ⊥)) }
    ensures files { S.files store.new ≡ S.files store.old }
    ensures later { S.faults store.old ≤ S.faults store.new }
{
    match store.open_file(name) {
        Err(_) => return Err(Outcome::StoreFault),
        Ok(false) => return Err(Outcome::NoFile),
        Ok(true) => {}
    }
    match read_source(alloc, store) {
        Ok(bytes) => Ok(bytes),
        Err(ReadFault::Failed) => Err(Outcome::StoreFault),
        Err(ReadFault::TooLarge) => Err(Outcome::Refused {
            line: 0,
            why: Why::TooLarge,
        }),
        Err(ReadFault::Memory) => Err(Outcome::Memory),
    }
}

/// The source of a work: the bytes of the file that is named, or the text of a workload, for which the store isn't asked. The files
/// stay.
pub(crate) fn source_of<S: Store>(
    alloc: Global,
    work: &Work,
    store: &mut S,
) -> Result<Vec<u8>, Outcome>
    requires { IsSized work.now }
    ensures source { IfOk result (λ v. IfSome (S.files store.old) (λ files. source_of (seen_work work.now) files ≡ Some v.items)) }
    // What is answered in the place of the bytes, unless it is a fault or want of memory.
    ensures refused { IfErr result (λ outcome. yields outcome ≡ false → IfSome (S.files store.old) (λ files. (e : Said) → whole_of_found e (source_of (seen_work work.now) files) ≡ silent outcome)) }
    ensures fault { IfErr result (λ outcome. outcome ≡ Outcome.StoreFault → Rose (S.faults store.old) (S.faults store.new)) }
    ensures own { IfErr result (λ outcome. (outcome ≡ Outcome.OutputFault → ⊥) × (outcome ≡ Outcome.BadWords → ⊥)) }
    ensures files { S.files store.new ≡ S.files store.old }
    ensures later { S.faults store.old ≤ S.faults store.new }
{
    match work {
        Work::File(name) | Work::Toggles(name) | Work::Activity(name) => {
            open_source(alloc, name, store)
        }
        Work::Workload(size) => match workload(alloc, *size) {
            Err(_) => Err(Outcome::Memory),
            Ok(text) => Ok(text),
        },
    }
}
