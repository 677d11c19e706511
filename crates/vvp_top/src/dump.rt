//! The dump's file: it is made before the first bytes of the dump, and then grows.

ghost use Rattle.std.specs.Prelude.{◌≡◌, ◌++◌, ℕ, List, Option, Some, true, IsSome, IsTrue, OnOk, OnErr};
ghost use Rattle.sys_tasks.specs.Phase.{dump_name};
ghost use Rattle.vvp_edge.specs.Causes.{HasCause};
ghost use Rattle.vvp_edge.specs.Files.{Files};
ghost use Rattle.vvp_top.specs.Delivery.{DumpStands, IsMade, after_dump, dump_given};
ghost use Rattle.vvp_top.specs.Ends.{CutFiles};
ghost use Rattle.vvp_top.specs.Whole.{dump_by};

use crate::pieces::{PIECE, append_pieces};
use event_pool::Agenda;
use port_chain::Fanout;
use sim_core::Engine;
use vvp_edge::{Failed, Store};

// Makes the file of this name, unless it is made.
fn make_file<S: Store>(store: &mut S, name: &[u8], made: &mut bool) -> Result<(), Failed>
    requires writing { made.old ≡ true → IsTrue (S.writing store.old) }
    ensures made { OnOk result (made.new ≡ true) }
    ensures writing { OnOk result (IsTrue (S.writing store.new)) }
    ensures ok { OnOk result ((front : List ℕ) (before : Option Files)
        → DumpStands made.old (Some name.now) front before (S.files store.old) (S.target store.old)
        → IsMade name.now front before (S.files store.new) (S.target store.new)) }
    ensures err { OnErr result ((bytes front : List ℕ) (before : Option Files)
        → DumpStands made.old (Some name.now) front before (S.files store.old) (S.target store.old)
        → CutFiles (dump_by (Some name.now) (front ++ bytes)) before (S.files store.new)) }
    ensures cause { HasCause (S.faults store.old) (S.faults store.new) result }
{
    if *made {
        return Ok(());
    }
    store.create(name)?;
    *made = true;
    Ok(())
}

/// Hands the bytes of the dump over, where it has a name: they are added to the file of that name, which is made first, unless it
/// is made already.
pub(crate) fn send_dump<A: Agenda + Drop, F: Fanout + Drop, S: Store>(
    engine: &mut Engine<A, F>,
    store: &mut S,
    made: &mut bool,
) -> Result<(), Failed>
    requires writing { made.old ≡ true → IsTrue (S.writing store.old) }
    ensures writing { OnOk result (made.new ≡ true → IsTrue (S.writing store.new)) }
    ensures engine { OnOk result (engine.new ≡ after_dump engine.old) }
    ensures made { OnOk result (IsSome (dump_name engine.old.machine.tasks.state) → made.new ≡ true) }
    ensures ok { OnOk result ((front : List ℕ) (before : Option Files)
        → DumpStands made.old (dump_name engine.old.machine.tasks.state) front before (S.files store.old) (S.target store.old)
        → DumpStands made.new (dump_name engine.old.machine.tasks.state) (front ++ dump_given engine.old) before (S.files store.new) (S.target store.new)) }
    ensures err { OnErr result ((front : List ℕ) (before : Option Files)
        → DumpStands made.old (dump_name engine.old.machine.tasks.state) front before (S.files store.old) (S.target store.old)
        → CutFiles (dump_by (dump_name engine.old.machine.tasks.state) (front ++ engine.old.machine.tasks.dump)) before (S.files store.new)) }
    ensures cause { HasCause (S.faults store.old) (S.faults store.new) result }
{
    let name = match engine.dump_name() {
        None => return Ok(()),
        Some(name) => name,
    };
    make_file(store, name, made)?;
    append_pieces(store, engine.dump(), PIECE)?;
    engine.clear_dump();
    Ok(())
}
