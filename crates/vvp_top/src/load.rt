//! The engine of a program.

ghost use Rattle.std.specs.Prelude.{◌≡◌, None, false, IfOk};
ghost use Rattle.sim_core.specs.Engine.{in_turn_of_machine};
ghost use Rattle.sim_core.specs.Start.{start_of};
ghost use Rattle.sym_link.specs.Sound.{IsProgram};

use net_engine::reader_list;
use port_chain::ChainFanout;
use sim_core::Engine;
use std::alloc::{AllocError, Global};
use sym_link::Program;
use time_wheel::Wheel;

/// The engine that runs the program: it keeps dues in a wheel and readers in chains.
pub(crate) type Runner = Engine<Wheel, ChainFanout>;

/// An engine at the start of a program's run, in this order.
pub(crate) fn load(alloc: Global, program: Program, order: u32) -> Result<Runner, AllocError>
    requires { IsProgram program }
    ensures start { IfOk result (λ engine. in_turn_of_machine (start_of program) ≡ engine.machine) }
    ensures program { IfOk result (λ engine. engine.program ≡ program) }
    ensures order { IfOk result (λ engine. engine.order ≡ order) }
    ensures going { IfOk result (λ engine. engine.machine.ending ≡ None) }
    ensures steps { IfOk result (λ engine. engine.machine.steps ≡ 0) }
{
    let readers = reader_list(alloc, &program)?;
    let nodes = program.items.as_slice().len() as u32;
    let fan = ChainFanout::build(alloc, nodes, &readers)?;
    let agenda = Wheel::new(alloc)?;
    Engine::load(alloc, program, agenda, fan, order)
}
