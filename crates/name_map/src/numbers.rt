//! The values of one worker's names, by their numbers.

ghost use Rattle.std.specs.Prelude.{◌≡◌, ◌*◌, ◌<◌, ◌++◌, [], length, vec_len, is_some, None, Some, option_copied, OnOk, OnErr};
ghost use Rattle.std.specs.Option.{option_copied_mut};
ghost use Rattle.std.specs.Borrow.{sem};
ghost use Rattle.std.specs.Map.{keys_of};
ghost use Rattle.name_map.specs.Lending.{lends_number};
ghost use Rattle.name_map.specs.Pages.{in_chunk, in_numbers, listed, within, Same, Puts};

use crate::page::{Chunk, chunk_of, page_of, slot_of};
use crate::spare::Spare;
use akl_terms::Name;
use std::alloc::{AllocError, Global};

/// The values of one worker's names.
#[derive(Drop)]
pub(crate) struct Numbers<V> {
    pub(crate) chunks: Vec<Chunk<V>>,
    // The last page that was begun, by its number among all pages. It keeps its memory when nothing is in it.
    pub(crate) newest: u64,
    // For the next page that is begun.
    pub(crate) spare: Spare<V>,
}

// Makes the chunks up to this one.
fn make_chunks<V: Drop>(
    alloc: Global,
    chunks: &mut Vec<Chunk<V>>,
    index: usize,
) -> Result<(), AllocError>
    ensures there { OnOk result (index < vec_len chunks.new) }
    ensures same { (n : _) (i : _) → within (in_chunk n) chunks.new.items i ≡ within (in_chunk n) chunks.old.items i }
{
    while chunks.len() <= index {
        chunks.push(Chunk {
            pages: Vec::new(alloc),
        })?;
    }
    Ok(())
}

impl<V> Numbers<V> {
    pub(crate) fn get(&self, number: u64) -> Option<&V>
        ensures { option_copied result ≡ in_numbers number self.now }
    {
        let chunk = self.chunks.get(chunk_of(number))?;
        let page = chunk.pages.get(page_of(number))?;
        page.slots.get(slot_of(number))?.as_ref()
    }

    fn contains(&self, number: u64) -> bool
        ensures { result ≡ is_some (in_numbers number self.now) }
    {
        self.get(number).is_some()
    }

    pub(crate) fn get_mut(&mut self, number: u64) -> Option<&mut V>
        ensures* writes_back { sem 𝓛 (lends_number V.row self.entry number result) }
        ensures value { option_copied_mut result ≡ in_numbers number self.old }
    {
        let chunk = self.chunks.get_mut(chunk_of(number))?;
        let page = chunk.pages.get_mut(page_of(number))?;
        page.slots.get_mut(slot_of(number))?.as_mut()
    }

    pub(crate) fn insert(&mut self, alloc: Global, number: u64, value: V) -> Result<(), AllocError>
    where
        V: Drop,
        ensures put { OnOk result (Puts self.old self.new number (Some value)) }
        ensures unchanged { OnErr result (Same self.old self.new) }
    {
        self.begin_page(alloc, number / 8);
        make_chunks(alloc, &mut self.chunks, chunk_of(number))?;
        self.chunks[chunk_of(number)].insert(alloc, &mut self.spare, number, value)
    }

    pub(crate) fn remove(&mut self, alloc: Global, number: u64) -> Option<V>
    where
        V: Drop,
        ensures was { result ≡ in_numbers number self.old }
        ensures gone { Puts self.old self.new number None }
    {
        let value = self.take(number)?;
        let page = number / 8;
        if page != self.newest {
            self.free_page(alloc, page);
        }
        Some(value)
    }

    /// Adds the names of the numbers that have a value at the end of a list, in increasing order. An `Err` comes for want
    /// of memory, and where a number would pass its word.
    pub(crate) fn push_names(&self, worker: u32, list: &mut Vec<Name>) -> Result<(), AllocError>
        ensures { OnOk result (list.new.items ≡ list.old.items ++ keys_of (listed worker 0 (length self.now.chunks.items * 512) (λ n. in_numbers n self.now) [])) }
    {
        let Some(count) = (self.chunks.len() as u64).checked_mul(512) else {
            return Err(AllocError);
        };
        for number in 0..count {
            if self.contains(number) {
                list.push(Name { worker, number })?;
            }
        }
        Ok(())
    }

    fn take(&mut self, number: u64) -> Option<V>
        ensures was { result ≡ in_numbers number self.old }
        ensures gone { Puts self.old self.new number None }
    {
        let chunk = self.chunks.get_mut(chunk_of(number))?;
        let page = chunk.pages.get_mut(page_of(number))?;
        page.slots.get_mut(slot_of(number))?.take()
    }

    // Remembers a page that is newer than the newest one, which then keeps its memory no longer.
    fn begin_page(&mut self, alloc: Global, page: u64)
    where
        V: Drop,
        ensures { Same self.old self.new }
    {
        let before = self.newest;
        if before < page {
            self.newest = page;
            self.free_page(alloc, before);
        }
    }

    // Gives up the slots of a page where nothing is in it. The chunk of the newest page isn't asked for more, as that page
    // has memory.
    fn free_page(&mut self, alloc: Global, page: u64)
    where
        V: Drop,
        ensures { Same self.old self.new }
    {
        let has_newest = page / 64 == self.newest / 64;
        if let Some(chunk) = self.chunks.get_mut((page / 64) as usize) {
            chunk.free_page(alloc, &mut self.spare, (page % 64) as usize, has_newest);
        }
    }
}
