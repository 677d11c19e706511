//! The report: a row for each variable.

ghost use Rattle.std.specs.Prelude.{◌≡◌, ◌<◌, ◌≤◌, ◌^◌, All, [], ◌∷◌, length, map, replicate, slice_index_or, IfOk, OnOk};
ghost use Rattle.std.specs.List.{enumerate_from, range_with_len};
ghost use Rattle.four_state.specs.declared.bits.Bit.TheVariants.{Unknown};
ghost use Rattle.vcd_read.specs.Sound.{AreOfNets};
ghost use Rattle.toggle_lanes.specs.declared.lanes.Moves.{Moves};
ghost use Rattle.toggle_lanes.specs.Counts.{rows_of};
ghost use Rattle.toggle_lanes.specs.Lanes.{lanes_of, all_values, moves_of, no_moves, AreFilled, IsCountable, row_with};

use crate::lanes::{Moves, NetLanes};
use std::alloc::{AllocError, Global};
use vcd_read::{Changes, Trace, VcdVar};

/// More values than this don't fit in memory: the lanes of each take 16 bytes at least.
const MOST_VALUES: usize = 1 << 56;

/// How often the places of a variable rise and fall.
#[derive(Clone, Copy, Debug, PartialEq, Eq)]
pub struct Row {
    /// The number of the variable.
    pub var: u32,
    /// How many places go from 0 to 1, over all neighbouring values of its net. The first value is all x.
    pub rises: u64,
    /// How many go from 1 to 0.
    pub falls: u64,
}

/// A row for each variable of a trace, in order. The only error is want of memory.
pub fn toggles(alloc: Global, trace: &Trace) -> Result<Vec<Row>, AllocError>
    requires few { length trace.now.vars < 2 ^ 32 }
    requires of_nets { AreOfNets trace.now.widths trace.now.vars trace.now.changes }
    ensures { IfOk result (λ rows. rows.items ≡ rows_of trace.now) }
{
    if trace.changes.len() > MOST_VALUES {
        return Err(AllocError);
    }
    let nets = gather(alloc, trace)?;
    let counts = counts(alloc, &nets)?;
    rows(alloc, trace.vars.as_slice(), &counts)
}

/// The lanes of the values of each net.
fn gather(alloc: Global, trace: &Trace) -> Result<Vec<NetLanes>, AllocError>
    requires of_nets { AreOfNets trace.now.widths trace.now.vars trace.now.changes }
    ensures { IfOk result (λ nets. nets.items ≡ map (λ net. lanes_of (all_values trace.now net)) (range_with_len 0 (length trace.now.widths))) }
{
    let mut nets = unknown(alloc, trace.widths.as_slice())?;
    fill(&mut nets, &trace.changes)?;
    Ok(nets)
}

/// The lanes of nets of these widths, each with the one value that is all x.
fn unknown(alloc: Global, widths: &[u8]) -> Result<Vec<NetLanes>, AllocError>
    requires least { All (λ width. 1 ≤ width) widths.now }
    requires most { All (λ width. width ≤ 128) widths.now }
    ensures { IfOk result (λ nets. nets.items ≡ map (λ width. lanes_of (replicate width Unknown ∷ [])) widths.now) }
{
    let mut nets = Vec::with_capacity(alloc, widths.len())?;
    for width in widths {
        nets.push(NetLanes::unknown(alloc, *width)?)?;
    }
    Ok(nets)
}

/// Gives each net the values that it takes.
fn fill(nets: &mut [NetLanes], changes: &Changes) -> Result<(), AllocError>
    requires { All (λ change. change.net < length nets.old) changes.now }
    ensures { OnOk result (AreFilled nets.old nets.new changes.now) }
{
    for change in changes.iter() {
        nets[change.net as usize].push(change.value)?;
    }
    Ok(())
}

/// How often the places of each net move.
fn counts(alloc: Global, nets: &[NetLanes]) -> Result<Vec<Moves>, AllocError>
    requires { All IsCountable nets.now }
    ensures { IfOk result (λ counts. counts.items ≡ map moves_of nets.now) }
{
    let mut counts = Vec::with_capacity(alloc, nets.len())?;
    for net in nets {
        counts.push(net.moves())?;
    }
    Ok(counts)
}

/// The rows of variables whose nets move so often.
fn rows(alloc: Global, vars: &[VcdVar], counts: &[Moves]) -> Result<Vec<Row>, AllocError>
    requires few { length vars.now < 2 ^ 32 }
    requires there { All (λ var. var.net < length counts.now) vars.now }
    ensures { IfOk result (λ rows. rows.items ≡ map (λ numbered. row_with numbered.0 (slice_index_or counts.now numbered.1.net no_moves)) (enumerate_from 0 vars.now)) }
{
    let mut rows = Vec::with_capacity(alloc, vars.len())?;
    for (i, var) in vars.iter().enumerate() {
        let Moves { rises, falls } = moves_at(counts, var.net);
        rows.push(Row {
            var: i as u32,
            rises,
            falls,
        })?;
    }
    Ok(rows)
}

/// How often the places of a net move.
fn moves_at(counts: &[Moves], net: u32) -> Moves
    requires { net < length counts.now }
    ensures { (none : Moves) → slice_index_or counts.now net none ≡ result }
{
    counts[net as usize]
}
