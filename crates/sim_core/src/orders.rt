//! Orders.

ghost use Rattle.std.specs.Prelude.{◌≡◌, ℕ};
ghost use Rattle.sym_link.specs.declared.program.Program.{Program};
ghost use Rattle.sim_core.specs.Machine.{Machine};
ghost use Rattle.sim_core.specs.Orders.{IsFreeRun};
ghost use Rattle.sim_core.specs.Step.{after, choice_of};

/// The law of orders, which this function states and does nothing for: of the Active events of now a simulator may take any
/// (IEEE 1364-2005, 11.4.2), and the run of an order is a run that does so. Order 0 takes the first.
pub fn state_orders()
    ensures free { (program : Program) (order steps : ℕ) (machine : Machine) → IsFreeRun program steps machine (after program order steps machine) }
    ensures first { (machine : Machine) → choice_of 0 machine ≡ 0 }
{}
