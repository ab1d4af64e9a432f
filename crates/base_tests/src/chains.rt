//! Chains of boxes from the root inwards, written as words.

use crate::stores::store_of;
use crate::term_words::frame;
use local_store::{Shared, Store};
use std::alloc::{AllocError, Global};

/// The store of the words, with the frame of this number.
fn box_of(alloc: Global, number: usize, words: &str) -> Result<Shared<Store>, AllocError> {
    let mut store = store_of(alloc, words)?;
    store.add_frame(frame(number as u64))?;
    Shared::new(alloc, store)
}

/// Adds the store of one more box inside.
fn add_box(alloc: Global, stores: &mut Vec<Shared<Store>>, words: &str) -> Result<(), AllocError> {
    stores.push(box_of(alloc, stores.len(), words)?)?;
    Ok(())
}

/// The stores of boxes, which have a frame each, from the outermost inwards, with `/` between them.
pub fn stores_of(alloc: Global, text: &str) -> Result<Vec<Shared<Store>>, AllocError> {
    let mut stores = Vec::new(alloc);
    for words in text.split('/') {
        add_box(alloc, &mut stores, words)?;
    }
    Ok(stores)
}
