// The uses of all blocks of a device.
ghost use Rattle.std.specs.Prelude.{◌≡◌, ◌+◌, ◌-◌, ◌≤◌, ◌<◌, length, replicate, IsOk, IfOk};
ghost use Rattle.unit_ledger.specs.Uses.{use_at, with_use};

use crate::NoMemory;
use std::alloc::Global;
use std::marker::Model;

/// The use of each block of a device, in units, numbered from 0.
#[derive(Drop)]
pub struct Ledger {
    uses: Vec<u32>,
}

impl Model for Ledger {
    ghost use Rattle.std.specs.Prelude.{ℕ, List};

    ghost Value = { List ℕ };

    ghost view = { λ l. l.uses.items };
}

impl Ledger {
    /// At `Ok` a ledger of so many blocks, in which nothing is live, with all memory that it will ever need. An `Err`
    /// is want of memory.
    pub fn new(alloc: Global, blocks: u32) -> Result<Ledger, NoMemory>
        ensures { IfOk result (λ ledger. ledger ≡ replicate blocks 0) }
    {
        let uses = Vec::from_elem(alloc, 0, blocks as usize)?;
        Ok(Ledger { uses })
    }

    /// There is always room for what is live in a block: the answer is `Ok`, and nothing changes.
    pub fn reserve(&mut self, _block: u32) -> Result<(), NoMemory>
        requires { _block < length self.old }
        ensures ok { IsOk result }
        ensures same { self.new ≡ self.old }
    {
        Ok(())
    }

    /// So many units more are live in the block then: its use may come to 65,278, the capacity of the greatest block.
    pub fn add(&mut self, block: u32, units: u32)
        requires in_range { block < length self.old }
        requires fits { use_at block self.old + units ≤ 65278 }
        ensures { self.new ≡ with_use block (use_at block self.old + units) self.old }
    {
        self.uses[block as usize] += units;
    }

    /// So many units are no longer live in the block then, and the use that is left of it is answered.
    pub fn drop_live(&mut self, block: u32, units: u32) -> u32
        requires in_range { block < length self.old }
        requires live { units ≤ use_at block self.old }
        ensures left { result ≡ use_at block self.new }
        ensures rest { self.new ≡ with_use block (use_at block self.old - units) self.old }
    {
        let left = self.uses[block as usize] - units;
        self.uses[block as usize] = left;
        left
    }

    /// The use of a block.
    pub fn used(&self, block: u32) -> u32
        requires { block < length self.now }
        ensures { result ≡ use_at block self.now }
    {
        self.uses[block as usize]
    }
}
