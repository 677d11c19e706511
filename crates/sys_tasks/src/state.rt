//! What the tasks keep between calls.

ghost use Rattle.std.specs.Prelude.{◌≡◌, [], ◌∷◌, ◌++◌, IfOk, OnOk, OnErr};

use four_state::Vec4;
use std::alloc::{AllocError, Global};
use std::marker::Model;
use vcd_write::Section;
use vvp_lex::Bytes;
use vvp_ops::Op;

/// A call of a task that prints later.
#[derive(Drop)]
pub struct Call {
    /// The `%vpi_call`.
    pub op: Op<u32>,
    /// The number of the scope that it stands in.
    pub scope: u32,
    /// The items that it popped, the top first.
    pub kept: VecList,
}

impl Call {
    /// An equal call. The only error is want of memory.
    pub fn copy(&self, alloc: Global) -> Result<Call, AllocError>
        ensures { IfOk result (λ copied. copied ≡ self.now) }
    {
        Ok(Call {
            op: self.op.copy(alloc)?,
            scope: self.scope,
            kept: self.kept.copy(alloc)?,
        })
    }
}

/// What the tasks keep between calls.
#[derive(Drop)]
pub struct TaskState {
    /// The last call of `$monitor`.
    pub monitor: Option<Call>,
    /// Whether the monitor prints at all.
    pub monitor_on: bool,
    /// Whether the monitor prints in the next phase in any case.
    pub monitor_due: bool,
    /// The values that the monitor printed last, one for each argument that is neither a text nor a time word; none before it
    /// printed.
    pub shown: VecList,
    /// The calls of `$strobe` since the last phase, in order.
    pub strobes: Calls,
    /// The name of the dump.
    pub name: Bytes,
    /// The numbers of the items that the dump has, rising.
    pub chosen: ItemList,
    /// 0 before the first `$dumpvars`, 1 while the header is due, 2 from then on.
    pub dumping: u8,
    /// Whether the dump writes changes.
    pub dump_on: bool,
    /// The sections that were asked for since the last phase, in order.
    pub requests: Sections,
    /// The values that the dump has of the chosen items, in their order; none before the header.
    pub last: VecList,
}

/// A list of vectors that owns its memory. Contracts see the list.
#[derive(Drop)]
pub struct VecList {
    vectors: Vec<Vec4>,
}

impl Model for VecList {
    ghost use Rattle.std.specs.Prelude.{List};
    ghost use Rattle.four_state.specs.declared.bits.Bit.{Bit};

    ghost Value = { List (List Bit) };

    ghost view = { λ l. l.vectors.items };
}

impl VecList {
    /// The empty list. It takes no memory yet.
    pub fn new(alloc: Global) -> VecList
        ensures { result ≡ [] }
    {
        VecList {
            vectors: Vec::new(alloc),
        }
    }

    /// One more, at the end. Without memory for it the list stays as it was.
    pub fn push(&mut self, item: Vec4) -> Result<(), AllocError>
        ensures ok { OnOk result (self.new ≡ self.old ++ item ∷ []) }
        ensures err { OnErr result (self.new ≡ self.old) }
    {
        self.vectors.push(item)?;
        Ok(())
    }

    /// Takes all of them away. Their memory is kept for what comes.
    pub fn clear(&mut self)
        ensures { self.new ≡ [] }
    {
        self.vectors.clear();
    }

    /// An equal list. The only error is want of memory.
    pub fn copy(&self, alloc: Global) -> Result<VecList, AllocError>
        ensures { IfOk result (λ copied. copied ≡ self.now) }
    {
        Ok(VecList {
            vectors: Vec::from_slice(alloc, self.vectors.as_slice())?,
        })
    }

    /// All of them, in order.
    pub fn as_slice(&self) -> &[Vec4]
        ensures { result.now ≡ self.now }
    {
        self.vectors.as_slice()
    }
}

/// A list of calls that owns its memory. Contracts see the list.
#[derive(Drop)]
pub struct Calls {
    calls: Vec<Call>,
}

impl Model for Calls {
    ghost use Rattle.std.specs.Prelude.{List};
    ghost use Rattle.sys_tasks.specs.declared.state.Call.{Call};

    ghost Value = { List Call };

    ghost view = { λ l. l.calls.items };
}

impl Calls {
    /// The empty list. It takes no memory yet.
    pub fn new(alloc: Global) -> Calls
        ensures { result ≡ [] }
    {
        Calls {
            calls: Vec::new(alloc),
        }
    }

    /// One more, at the end. Without memory for it the list stays as it was.
    pub fn push(&mut self, item: Call) -> Result<(), AllocError>
        ensures ok { OnOk result (self.new ≡ self.old ++ item ∷ []) }
        ensures err { OnErr result (self.new ≡ self.old) }
    {
        self.calls.push(item)?;
        Ok(())
    }

    /// Takes all of them away. Their memory is kept for what comes.
    pub fn clear(&mut self)
        ensures { self.new ≡ [] }
    {
        self.calls.clear();
    }

    /// An equal list. The only error is want of memory.
    pub fn copy(&self, alloc: Global) -> Result<Calls, AllocError>
        ensures { IfOk result (λ copied. copied ≡ self.now) }
    {
        let mut copied = Calls::new(alloc);
        let calls = self.as_slice();
        for call in calls {
            copied.push(call.copy(alloc)?)?;
        }
        Ok(copied)
    }

    /// All of them, in order.
    pub fn as_slice(&self) -> &[Call]
        ensures { result.now ≡ self.now }
    {
        self.calls.as_slice()
    }
}

/// A list of item numbers that owns its memory. Contracts see the list.
#[derive(Drop)]
pub struct ItemList {
    items: Vec<u32>,
}

impl Model for ItemList {
    ghost use Rattle.std.specs.Prelude.{List, ℕ};

    ghost Value = { List ℕ };

    ghost view = { λ l. l.items.items };
}

impl ItemList {
    /// The empty list. It takes no memory yet.
    pub fn new(alloc: Global) -> ItemList
        ensures { result ≡ [] }
    {
        ItemList {
            items: Vec::new(alloc),
        }
    }

    /// One more, at the end. Without memory for it the list stays as it was.
    pub fn push(&mut self, item: u32) -> Result<(), AllocError>
        ensures ok { OnOk result (self.new ≡ self.old ++ item ∷ []) }
        ensures err { OnErr result (self.new ≡ self.old) }
    {
        self.items.push(item)?;
        Ok(())
    }

    /// An equal list. The only error is want of memory.
    pub fn copy(&self, alloc: Global) -> Result<ItemList, AllocError>
        ensures { IfOk result (λ copied. copied ≡ self.now) }
    {
        Ok(ItemList {
            items: Vec::from_slice(alloc, self.items.as_slice())?,
        })
    }

    /// All of them, in order.
    pub fn as_slice(&self) -> &[u32]
        ensures { result.now ≡ self.now }
    {
        self.items.as_slice()
    }
}

/// A list of sections of a dump that owns its memory. Contracts see the list.
#[derive(Drop)]
pub struct Sections {
    sections: Vec<Section>,
}

impl Model for Sections {
    ghost use Rattle.std.specs.Prelude.{List};
    ghost use Rattle.vcd_write.specs.declared.types.Section.{Section};

    ghost Value = { List Section };

    ghost view = { λ l. l.sections.items };
}

impl Sections {
    /// The empty list. It takes no memory yet.
    pub fn new(alloc: Global) -> Sections
        ensures { result ≡ [] }
    {
        Sections {
            sections: Vec::new(alloc),
        }
    }

    /// One more, at the end. Without memory for it the list stays as it was.
    pub fn push(&mut self, item: Section) -> Result<(), AllocError>
        ensures ok { OnOk result (self.new ≡ self.old ++ item ∷ []) }
        ensures err { OnErr result (self.new ≡ self.old) }
    {
        self.sections.push(item)?;
        Ok(())
    }

    /// Takes all of them away. Their memory is kept for what comes.
    pub fn clear(&mut self)
        ensures { self.new ≡ [] }
    {
        self.sections.clear();
    }

    /// An equal list. The only error is want of memory.
    pub fn copy(&self, alloc: Global) -> Result<Sections, AllocError>
        ensures { IfOk result (λ copied. copied ≡ self.now) }
    {
        Ok(Sections {
            sections: Vec::from_slice(alloc, self.sections.as_slice())?,
        })
    }

    /// All of them, in order.
    pub fn as_slice(&self) -> &[Section]
        ensures { result.now ≡ self.now }
    {
        self.sections.as_slice()
    }
}
