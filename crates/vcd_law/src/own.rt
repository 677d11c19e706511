//! Reading a dump of ours back.

ghost use Rattle.std.specs.Prelude.{◌≡◌, ◌≤◌, ◌^◌, length, IfOk};
ghost use Rattle.vcd_read.specs.declared.types.Trace.{Trace};
ghost use Rattle.vcd_read.specs.Grammar.{IsVcd};
ghost use Rattle.vcd_read.specs.Sound.{IsTrace};
ghost use Rattle.vcd_law.specs.Own.{IsOwn};

use std::alloc::{AllocError, Global};
use vcd_read::{Trace, VcdFault, read_vcd};

/// The trace of a dump of ours, of at most 2^26 bytes. The only error is want of memory: no such dump is refused.
///
/// # Errors
///
/// `AllocError` where memory is short.
pub fn read_own(alloc: Global, bytes: &[u8]) -> Result<Trace, AllocError>
    requires small { length bytes.now ≤ 2 ^ 26 }
    requires own { IsOwn bytes.now }
    // What is read is in the grammar.
    ensures found { IfOk result (IsVcd bytes.now) }
    // It is the only trace that the bytes spell.
    ensures only { (trace : Trace) → IsVcd bytes.now trace → IfOk result (λ read. read ≡ trace) }
    // Each net that is named is there, and each value is as wide as its net.
    ensures of_nets { IfOk result (IsTrace (2 ^ 26)) }
{
    match read_vcd(alloc, bytes) {
        Ok(trace) => Ok(trace),
        Err(VcdFault::Memory) => Err(AllocError),
        Err(VcdFault::Refused { .. }) => unreachable!(),
    }
}
