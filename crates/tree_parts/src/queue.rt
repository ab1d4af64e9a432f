//! Which blocks are still to split others.

use std::alloc::{AllocError, Global};

// The names of blocks that wait, and of each name how many nodes have it and whether it waits.
// What it says is a matter of time alone: blocks are split soundly by any block.
#[derive(Drop)]
pub(crate) struct Queue {
    names: Vec<usize>,
    sizes: Vec<usize>,
    waits: Vec<bool>,
}

impl Queue {
    // Each block waits that has a node.
    pub(crate) fn new(alloc: Global, members: &[Vec<usize>]) -> Result<Queue, AllocError> {
        let mut queue = Queue {
            names: Vec::new(alloc),
            sizes: Vec::new(alloc),
            waits: Vec::new(alloc),
        };
        for name in 0..members.len() {
            let size = members[name].len();
            queue.sizes.push(size)?;
            queue.waits.push(size > 0)?;
            if size > 0 {
                queue.names.push(name)?;
            }
        }
        Ok(queue)
    }

    // A block that waits, which then doesn't.
    pub(crate) fn next(&mut self) -> Option<usize> {
        let name = self.names.pop()?;
        if let Some(waits) = self.waits.get_mut(name) {
            *waits = false;
        }
        Some(name)
    }

    // How many nodes have the name.
    pub(crate) fn size(&self, name: usize) -> usize {
        self.sizes.get(name).copied().unwrap_or(0)
    }

    // So many nodes of a block have the next name now. It waits if the block does; else the smaller of both.
    pub(crate) fn split(&mut self, name: usize, count: usize) -> Result<(), AllocError> {
        let rest = self.size(name).saturating_sub(count);
        if let Some(size) = self.sizes.get_mut(name) {
            *size = rest;
        }
        let is_waiting = self.waits.get(name).copied().unwrap_or(false);
        let fresh_waits = is_waiting || count <= rest;
        let fresh = self.sizes.len();
        self.sizes.push(count)?;
        self.waits.push(fresh_waits)?;
        if fresh_waits {
            self.names.push(fresh)?;
            return Ok(());
        }
        if let Some(waits) = self.waits.get_mut(name) {
            *waits = true;
        }
        self.names.push(name)?;
        Ok(())
    }
}
