//! What is added to a store.
ghost use Rattle.std.specs.Prelude.{◌≡◌, [], ◌∷◌, ◌++◌, IfOk};
ghost use Rattle.rational_unify.specs.Known.{found_in};
ghost use Rattle.local_store.specs.Stored.{is_named};
ghost use Rattle.local_store.specs.Telling.{somewhere};
ghost use Rattle.local_store.specs.Parts.{SameNames};

use crate::listed::{first_in, is_among};
use crate::store::CLASHING;
use akl_terms::{Name, Term, Var};
use smallvec::SmallVec;
use std::alloc::{AllocError, Global};

/// What is added to a store: frames, ports with their tails, and bindings, each in the order in which they are added.
#[derive(Drop)]
pub struct Part {
    pub frames: SmallVec<Name, 1>,
    pub ports: Vec<(Name, Term)>,
    pub bindings: Vec<(Var, Term)>,
}

impl Part {
    /// Nothing is added. It takes no memory.
    pub fn new(alloc: Global) -> Part
        ensures frames { result.frames.items ≡ [] }
        ensures ports { result.ports.items ≡ [] }
        ensures bindings { result.bindings.items ≡ [] }
    {
        Part {
            frames: SmallVec::new(alloc),
            ports: Vec::new(alloc),
            bindings: Vec::new(alloc),
        }
    }

    /// A frame and these bindings. It takes no memory.
    pub fn of(alloc: Global, frame: Name, bindings: Vec<(Var, Term)>) -> Part
        ensures frames { result.frames.items ≡ frame ∷ [] }
        ensures ports { result.ports.items ≡ [] }
        ensures bindings { result.bindings.items ≡ bindings.items }
    {
        Part {
            frames: SmallVec::from_buf(alloc, [frame]),
            ports: Vec::new(alloc),
            bindings,
        }
    }

    /// Also has the bindings of a variable, `CLASHING`, that is bound to both terms. After an `Err`, for want of memory, it
    /// may have the first of them alone.
    pub(crate) fn add_clash(&mut self, left: Term, right: Term) -> Result<(), AllocError>
        ensures added { IfOk result (λ _. self.new.bindings.items ≡ self.old.bindings.items ++ (somewhere, left) ∷ (somewhere, right) ∷ []) }
        ensures names { SameNames self.old self.new }
    {
        self.bindings.push((CLASHING, left))?;
        self.bindings.push((CLASHING, right))?;
        Ok(())
    }

    /// Whether the frame is one of those that are added.
    pub fn has_frame(&self, frame: Name) -> bool
        ensures { result ≡ is_named self.now.frames.items frame }
    {
        is_among(self.frames.as_slice(), frame)
    }

    /// What the first of the bindings of the variable binds it to; `None` exactly where it has none.
    pub fn first_binding(&self, variable: Var) -> Option<Term>
        ensures { result ≡ found_in self.now.bindings.items variable }
    {
        first_in(&self.bindings, variable)
    }
}
