//! A run up to a budget of steps.

ghost use Rattle.std.specs.Prelude.{◌≡◌, ◌<◌, ◌+◌, ◌*◌, ◌^◌, None, true, IfOk, OnOk, OnErr};
ghost use Rattle.sim_core.specs.Engine.{EngineFails, EngineFollows};
ghost use Rattle.sim_core.specs.Step.{run_from};

use crate::ending::Ending;
use crate::engine::Engine;
use event_pool::Agenda;
use port_chain::Fanout;
use std::alloc::AllocError;

/// Runs an engine for at most `budget` steps, and answers its ending, or none where the budget is spent. After that many
/// steps without an ending a run with nothing left to do is idle still.
///
/// # Errors
///
/// `AllocError` where memory is wanting. Output and dump so far then begin those of the whole run.
pub fn run<A: Agenda + Drop, F: Fanout + Drop>(
    engine: &mut Engine<A, F>,
    budget: u64,
) -> Result<Option<Ending>, AllocError>
    requires going { engine.old.machine.ending ≡ None }
    requires steps { engine.old.machine.steps + budget < 3 * 2 ^ 62 }
    ensures run { OnOk result (EngineFollows (run_from engine.old.program engine.old.order budget) engine.old engine.new) }
    ensures err { OnErr result (EngineFails (run_from engine.old.program engine.old.order budget) engine.old engine.new) }
    // It answers this from now on.
    ensures failed { OnErr result (engine.new.failed ≡ true) }
    ensures answer { IfOk result (λ ending. ending ≡ engine.new.machine.ending) }
{
    for _done in 0..budget {
        if let Some(ending) = engine.step()? {
            return Ok(Some(ending));
        }
    }
    if engine.idle() {
        return engine.step();
    }
    Ok(None)
}
