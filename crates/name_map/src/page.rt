//! Pages of values, and chunks of pages.

ghost use Rattle.std.specs.Prelude.{◌≡◌, ◌+◌, ◌*◌, ◌/◌, ◌%◌, ◌≤◌, ◌^◌, vec_len, is_some, Some, OnOk, OnErr};
ghost use Rattle.std.specs.List.{list_all};
ghost use Rattle.name_map.specs.Free.{is_free};
ghost use Rattle.name_map.specs.Pages.{is_bare, in_slot, in_page, in_chunk, within, PutsInPage, PutsInChunk};

use crate::spare::Spare;
use std::alloc::{AllocError, Global};
use std::mem;

/// The values of eight numbers that follow one another. Without slots it has no memory of its own.
#[derive(Drop)]
pub(crate) struct Page<V> {
    pub(crate) slots: Vec<Option<V>>,
}

/// 64 pages that follow one another. Without pages it has no memory of its own.
#[derive(Drop)]
pub(crate) struct Chunk<V> {
    pub(crate) pages: Vec<Page<V>>,
}

/// The chunk of a number.
pub(crate) fn chunk_of(number: u64) -> usize
    ensures { result ≡ number / 512 }
{
    (number / 512) as usize
}

/// The page of a number in its chunk.
pub(crate) fn page_of(number: u64) -> usize
    ensures { result ≡ number / 8 % 64 }
{
    (number / 8 % 64) as usize
}

/// The slot of a number in its page.
pub(crate) fn slot_of(number: u64) -> usize
    ensures { result ≡ number % 8 }
{
    (number % 8) as usize
}

// Makes the slots of a page.
fn make_slots<V: Drop>(slots: &mut Vec<Option<V>>) -> Result<(), AllocError>
    ensures there { OnOk result (8 ≤ vec_len slots.new) }
    ensures same { (i : _) → within in_slot slots.new.items i ≡ within in_slot slots.old.items i }
{
    let missing = 8usize.saturating_sub(slots.len());
    if missing == 0 {
        return Ok(());
    }
    slots.reserve_exact(missing)?;
    while slots.len() < 8 {
        slots.push(None)?;
    }
    Ok(())
}

// Takes the slots that were kept, where a page has none.
fn take_spare<V: Drop>(alloc: Global, slots: &mut Vec<Option<V>>, spare: &mut Spare<V>)
    ensures { (i : _) → within in_slot slots.new.items i ≡ within in_slot slots.old.items i }
{
    if slots.is_empty() {
        *slots = spare.take(alloc);
    }
}

// Has a page have its slots: those that were kept, or else new ones.
fn begin_slots<V: Drop>(
    alloc: Global,
    slots: &mut Vec<Option<V>>,
    spare: &mut Spare<V>,
) -> Result<(), AllocError>
    ensures there { OnOk result (8 ≤ vec_len slots.new) }
    ensures same { (i : _) → within in_slot slots.new.items i ≡ within in_slot slots.old.items i }
{
    take_spare(alloc, slots, spare);
    make_slots(slots)
}

// Makes the pages of a chunk.
fn make_pages<V: Drop>(alloc: Global, pages: &mut Vec<Page<V>>) -> Result<(), AllocError>
    ensures there { OnOk result (64 ≤ vec_len pages.new) }
    ensures same { (n : _) (i : _) → within (in_page n) pages.new.items i ≡ within (in_page n) pages.old.items i }
{
    let missing = 64usize.saturating_sub(pages.len());
    if missing == 0 {
        return Ok(());
    }
    pages.reserve_exact(missing)?;
    while pages.len() < 64 {
        pages.push(Page {
            slots: Vec::new(alloc),
        })?;
    }
    Ok(())
}

impl<V> Page<V> {
    fn is_empty(&self) -> bool
        ensures { result ≡ list_all is_free self.now.slots.items }
    {
        self.slots.iter().all(|slot| slot.is_none())
    }

    // Gives up its slots where nothing is there. The answer is whether it did.
    fn free(&mut self, alloc: Global, spare: &mut Spare<V>) -> bool
    where
        V: Drop,
        ensures { (n : _) → in_page n self.new ≡ in_page n self.old }
    {
        let empty = self.is_empty();
        if empty {
            spare.keep(mem::replace(&mut self.slots, Vec::new(alloc)));
        }
        empty
    }

    fn insert(
        &mut self,
        alloc: Global,
        spare: &mut Spare<V>,
        number: u64,
        value: V,
    ) -> Result<(), AllocError>
    where
        V: Drop,
        ensures put { OnOk result (PutsInPage self.old self.new number (Some value)) }
        ensures unchanged { OnErr result ((n : _) → in_page n self.new ≡ in_page n self.old) }
    {
        begin_slots(alloc, &mut self.slots, spare)?;
        self.slots[slot_of(number)] = Some(value);
        Ok(())
    }
}

impl<V> Chunk<V> {
    pub(crate) fn insert(
        &mut self,
        alloc: Global,
        spare: &mut Spare<V>,
        number: u64,
        value: V,
    ) -> Result<(), AllocError>
    where
        V: Drop,
        ensures put { OnOk result (PutsInChunk self.old self.new number (Some value)) }
        ensures unchanged { OnErr result ((n : _) → in_chunk n self.new ≡ in_chunk n self.old) }
    {
        make_pages(alloc, &mut self.pages)?;
        self.pages[page_of(number)].insert(alloc, spare, number, value)
    }

    /// Gives up the slots of a page where nothing is in it, and the memory of all pages where none has any. The pages stay
    /// where they are kept.
    pub(crate) fn free_page(
        &mut self,
        alloc: Global,
        spare: &mut Spare<V>,
        index: usize,
        keep: bool,
    )
    where
        V: Drop,
        ensures { (n : _) → in_chunk n self.new ≡ in_chunk n self.old }
    {
        if self.free_one(alloc, spare, index) && !keep && self.is_bare() {
            self.pages = Vec::new(alloc);
        }
    }

    fn free_one(&mut self, alloc: Global, spare: &mut Spare<V>, index: usize) -> bool
    where
        V: Drop,
        ensures { (n : _) → in_chunk n self.new ≡ in_chunk n self.old }
    {
        match self.pages.get_mut(index) {
            Some(page) => page.free(alloc, spare),
            None => false,
        }
    }

    fn is_bare(&self) -> bool
        ensures { result ≡ list_all is_bare self.now.pages.items }
    {
        self.pages.iter().all(|page| page.slots.is_empty())
    }
}
