ghost use Rattle.std.specs.Prelude.{◌≡◌, IfOk};
ghost use Rattle.vvp_threads.specs.Frame.{first_frame};

use crate::serials::Serials;
use crate::stack::Stack;
use four_state::Bit;
use std::alloc::{AllocError, Global};

/// What the opcodes of a thread work on.
#[derive(Debug, Drop)]
pub struct Frame {
    /// The place of the next opcode in the code, from 0.
    pub pc: u32,
    pub stack: Stack,
    pub flags: [Bit; 256],
    pub registers: [u64; 16],
    /// The serials of the threads that this one started and hasn't joined, in the order of starting.
    pub children: Serials,
}

/// What a thread does next.
#[derive(Clone, Copy, Debug, PartialEq, Eq)]
pub enum ThreadState {
    /// It runs, or goes on when it is due.
    Ready,
    /// It waits for the event with this item number (IEEE 1364-2005, 9.7).
    Waiting(u32),
    /// It waits until the thread with this serial has ended (IEEE 1364-2005, 9.8.2).
    Joining(u64),
}

/// A thread of the simulated design.
#[derive(Debug, Drop)]
pub struct Thread {
    /// Its number in the order of starting, from 0. No other thread ever has it.
    pub serial: u64,
    /// The serial of the thread that started it.
    pub parent: Option<u64>,
    /// The number of the scope that it stands in.
    pub scope: u32,
    pub frame: Frame,
    pub state: ThreadState,
}

impl Frame {
    /// The frame of a thread that starts at a place of the code: nothing on the stack, each flag x, each register 0. It
    /// takes no memory yet.
    pub fn new(alloc: Global, pc: u32) -> Frame
        ensures { result ≡ first_frame pc }
    {
        Frame {
            pc,
            stack: Stack::new(alloc),
            flags: [Bit::Unknown; 256],
            registers: [0; 16],
            children: Serials::new(alloc),
        }
    }

    /// Another frame with the same contents. The only error is want of memory.
    pub fn copy(&self, alloc: Global) -> Result<Frame, AllocError>
        ensures { IfOk result (λ frame. frame ≡ self.now) }
    {
        Ok(Frame {
            pc: self.pc,
            stack: self.stack.copy(alloc)?,
            flags: self.flags,
            registers: self.registers,
            children: self.children.copy(alloc)?,
        })
    }
}

impl Thread {
    ghost use Rattle.std.specs.Borrow.{sem};
    ghost use Rattle.vvp_threads.specs.LendsThread.{lends_own_frame};

    /// The frame, for writing.
    pub(crate) fn frame_mut(&mut self) -> &mut Frame
        ensures* writes_back { sem 𝓛 (lends_own_frame self.entry result) }
        ensures frame { result.now ≡ self.old.frame }
    {
        &mut self.frame
    }
}
