//! The frames of boxes.

ghost use Rattle.std.specs.Prelude.{◌≡◌, IfOk};
ghost use Rattle.local_store.specs.Stored.{nothing};
ghost use Rattle.local_store.specs.Promoting.{with_frames};
ghost use Rattle.stable_test.specs.Frames.{with_all_frames};

use akl_terms::Name;
use box_tree::InnerBox;
use local_store::Store;
use std::alloc::{AllocError, Global};

/// A store that has the frames of these boxes, and nothing else.
pub fn frames_of(alloc: Global, boxes: &[InnerBox]) -> Result<Store, AllocError>
    ensures { IfOk result (λ s. s ≡ with_all_frames nothing boxes.now) }
{
    let mut frames = Store::new(alloc);
    for inner in boxes {
        add_frames(&mut frames, inner.store.get().frames()?)?;
    }
    Ok(frames)
}

// Adds these frames.
fn add_frames(store: &mut Store, mut frames: Vec<Name>) -> Result<(), AllocError>
    ensures { IfOk result (λ _. store.new ≡ with_frames store.old frames.items) }
{
    while let Some(frame) = frames.pop() {
        store.add_frame(frame)?;
    }
    Ok(())
}
