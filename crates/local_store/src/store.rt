//! The store of one box.
ghost use Rattle.std.specs.Prelude.{◌≡◌, ◌++◌, IfOk, IfErr, true};
ghost use Rattle.std.specs.Map.{lookup};
ghost use Rattle.akl_terms.specs.Names.{same_name};
ghost use Rattle.rational_unify.specs.Known.{found_in};
ghost use Rattle.local_store.specs.Chained.{BindNone};
ghost use Rattle.local_store.specs.Stored.{nothing, made_of, unbound, is_named, with_frame, with_port, with_binding, with_bindings};
ghost use Rattle.local_store.specs.Telling.{clashed};
ghost use Rattle.local_store.specs.Parts.{with_part};

use crate::listed::{binds_none, first_in, is_among, put_binding, put_frame};
use crate::part::Part;
use crate::ports::Ports;
use crate::settled::Settled;
use crate::settling::{settle, settled_of};
use akl_terms::{Name, Term, Var};
use smallvec::SmallVec;
use std::alloc::{AllocError, Global};
use std::marker::Model;

// How many of the newest bindings, or frames, stand in the list at most.
const FEW: usize = 8;

/// The variable that a store binds to two terms whose heads differ, where a clash is told to it. No frame has it.
pub const CLASHING: Var = Var {
    frame: Name {
        worker: 0,
        number: 0,
    },
    index: 0,
};

/// The frames, bindings and ports of one box.
///
/// Copies share what they have in common, but for the few entries that were added last, which each has in lists of its
/// own: a change of one adds to its lists and leaves the others as they were. A part that joins brings the lists into trees,
/// and so does a change that finds its list full: each frame with its bindings at a cost in the order of the number of digits
/// of its number, in place where no copy shares the tree.
#[derive(Drop)]
pub struct Store {
    alloc: Global,
    settled: Settled,
    // What was added last, in the order in which it was added.
    frames: SmallVec<Name, 1>,
    bindings: Vec<(Var, Term)>,
    ports: Ports,
}

impl Model for Store {
    ghost use Rattle.local_store.specs.Stored.{Stored};
    ghost use Rattle.local_store.specs.Kept.{value_of};

    ghost Value = { Stored };

    ghost view = { λ s. value_of s.settled s.frames.items s.bindings.items s.ports };
}

impl Store {
    /// A store that has nothing. It takes no memory.
    pub fn new(alloc: Global) -> Store
        ensures { result ≡ nothing }
    {
        Store {
            alloc,
            settled: Settled::new(alloc),
            frames: SmallVec::new(alloc),
            bindings: Vec::new(alloc),
            ports: Ports::new(),
        }
    }

    /// The store of these frames and bindings, as if they were added one after another. Where there are at most eight of each
    /// it takes no more than two pieces of memory.
    pub fn of(alloc: Global, frames: &[Name], bindings: &[(Var, Term)]) -> Result<Store, AllocError>
        ensures { IfOk result (λ s. s ≡ made_of frames.now bindings.now) }
    {
        if frames.len() <= FEW && bindings.len() <= FEW {
            return Store::listed(alloc, frames, bindings);
        }
        Ok(Store {
            alloc,
            settled: settled_of(alloc, frames, bindings)?,
            frames: SmallVec::new(alloc),
            bindings: Vec::new(alloc),
            ports: Ports::new(),
        })
    }

    // A store whose frames and bindings all stand in lists.
    fn listed(alloc: Global, frames: &[Name], bindings: &[(Var, Term)]) -> Result<Store, AllocError>
        ensures { IfOk result (λ s. s ≡ made_of frames.now bindings.now) }
    {
        let mut list = Vec::with_capacity(alloc, bindings.len())?;
        list.extend_from_slice(bindings)?;
        Ok(Store {
            alloc,
            settled: Settled::new(alloc),
            frames: SmallVec::from_slice(alloc, frames)?,
            bindings: list,
            ports: Ports::new(),
        })
    }

    /// An equal store, in constant time. Want of memory comes only where there are entries that aren't in a tree yet, or
    /// where a count of holders is full.
    pub fn share(&self) -> Result<Store, AllocError>
        ensures { IfOk result (λ s. s ≡ self.now) }
    {
        self.share_with_room(self.bindings.len())
    }

    /// An equal store, which is to be told something: in its list there is room for as many bindings as may stand there. An
    /// `Err` is want of memory.
    pub fn share_to_tell(&self) -> Result<Store, AllocError>
        ensures { IfOk result (λ s. s ≡ self.now) }
    {
        self.share_with_room(FEW)
    }

    // An equal store, with room for so many bindings in its list.
    fn share_with_room(&self, room: usize) -> Result<Store, AllocError>
        ensures { IfOk result (λ s. s ≡ self.now) }
    {
        let mut bindings = Vec::with_capacity(self.alloc, room)?;
        bindings.extend_from_slice(&self.bindings)?;
        Ok(Store {
            alloc: self.alloc,
            settled: self.settled.share()?,
            frames: SmallVec::from_slice(self.alloc, self.frames.as_slice())?,
            bindings,
            ports: self.ports.share()?,
        })
    }

    /// Also has the frame. An `Err`, for want of memory, leaves the store as it was.
    pub fn add_frame(&mut self, frame: Name) -> Result<(), AllocError>
        ensures added { IfOk result (λ _. self.new ≡ with_frame self.old frame) }
        ensures unchanged { IfErr result (λ _. self.new ≡ self.old) }
    {
        self.make_room();
        self.frames.push(frame)?;
        Ok(())
    }

    /// Also has the port; one that is there takes the new tail. An `Err`, for want of memory, leaves the store as it
    /// was.
    pub fn set_port(&mut self, port: Name, tail: Term) -> Result<(), AllocError>
        ensures set { IfOk result (λ _. self.new ≡ with_port self.old port tail) }
        ensures unchanged { IfErr result (λ _. self.new ≡ self.old) }
    {
        self.ports.set(self.alloc, port, tail)
    }

    /// Also has the binding, after those that the variable has. None is replaced: all of them are equations of the
    /// store. An `Err`, for want of memory, leaves the store as it was.
    pub fn add_binding(&mut self, variable: Var, term: Term) -> Result<(), AllocError>
        ensures added { IfOk result (λ _. self.new ≡ with_binding self.old variable term) }
        ensures unchanged { IfErr result (λ _. self.new ≡ self.old) }
    {
        self.make_room();
        self.bindings.push((variable, term))?;
        Ok(())
    }

    /// The store that also has the frame.
    pub fn with_frame(&self, frame: Name) -> Result<Store, AllocError>
        ensures { IfOk result (λ s. s ≡ with_frame self.now frame) }
    {
        let mut store = self.share()?;
        store.add_frame(frame)?;
        Ok(store)
    }

    /// The store that also has the port; one that is there takes the new tail.
    pub fn with_port(&self, port: Name, tail: Term) -> Result<Store, AllocError>
        ensures { IfOk result (λ s. s ≡ with_port self.now port tail) }
    {
        let mut store = self.share()?;
        store.set_port(port, tail)?;
        Ok(store)
    }

    /// The store that also has the binding, after those that the variable has. None is replaced.
    pub fn with_binding(&self, variable: Var, term: Term) -> Result<Store, AllocError>
        ensures { IfOk result (λ s. s ≡ with_binding self.now variable term) }
    {
        let mut store = self.share()?;
        store.add_binding(variable, term)?;
        Ok(store)
    }

    /// The frames and ports with these bindings alone, added one after another.
    pub(crate) fn with_only(&self, bindings: &[(Var, Term)]) -> Result<Store, AllocError>
        ensures { IfOk result (λ s. s ≡ with_bindings (unbound self.now) bindings.now) }
    {
        let mut store = self.without_bindings()?;
        store.add_all(bindings)?;
        Ok(store)
    }

    // Brings the lists into the tree where one of them is full.
    fn make_room(&mut self)
        ensures { self.new ≡ self.old }
    {
        if self.frames.len() >= FEW || self.bindings.len() >= FEW {
            self.empty_lists();
        }
    }

    // Brings the lists into the tree where something is there, or where one of them is too long.
    fn keep_few(&mut self)
        ensures { self.new ≡ self.old }
    {
        if !self.settled.is_empty() || self.frames.len() > FEW || self.bindings.len() > FEW {
            self.empty_lists();
        }
    }

    // Brings the lists into the tree, as far as there is memory.
    fn empty_lists(&mut self)
        ensures { self.new ≡ self.old }
    {
        settle(
            self.alloc,
            &mut self.settled,
            &mut self.frames,
            &mut self.bindings,
        );
    }

    /// Also has these bindings, added one after another. After an `Err` it may have some of them.
    pub fn add_all(&mut self, bindings: &[(Var, Term)]) -> Result<(), AllocError>
        ensures { IfOk result (λ _. self.new ≡ with_bindings self.old bindings.now) }
    {
        for binding in bindings {
            self.add_binding(binding.0, binding.1)?;
        }
        Ok(())
    }

    /// Also has `CLASHING` bound to both terms, behind what it is bound to, so that it is inconsistent where their heads
    /// differ. After an `Err` it may be bound to the first of them alone.
    pub fn add_clash(&mut self, left: Term, right: Term) -> Result<(), AllocError>
        ensures { IfOk result (λ _. self.new ≡ clashed self.old left right) }
    {
        self.add_binding(CLASHING, left)?;
        self.add_binding(CLASHING, right)
    }

    /// Also has a part: its frames, ports and bindings. Where the store has trees, all that stands in
    /// its lists comes into them, as far as there is memory; else few of them stay in its lists, which become those of the part
    /// where they are empty. An `Err`, for want of memory, leaves the store as it was.
    pub fn join(&mut self, part: Part) -> Result<(), AllocError>
        ensures joined { IfOk result (λ _. self.new ≡ with_part self.old part) }
        ensures unchanged { IfErr result (λ _. self.new ≡ self.old) }
    {
        let Part {
            frames,
            ports,
            bindings,
        } = part;
        let frames = frames_behind(self.alloc, self.frames.as_slice(), frames)?;
        let bindings = bindings_behind(self.alloc, &self.bindings, bindings)?;
        self.ports.set_all(self.alloc, ports.as_slice())?;
        self.frames = frames;
        self.bindings = bindings;
        self.keep_few();
        Ok(())
    }

    // The frames and ports alone.
    fn without_bindings(&self) -> Result<Store, AllocError>
        ensures { IfOk result (λ s. s ≡ unbound self.now) }
    {
        Ok(Store {
            alloc: self.alloc,
            settled: self.settled.without_bindings(self.alloc)?,
            frames: SmallVec::from_slice(self.alloc, self.frames.as_slice())?,
            bindings: Vec::new(self.alloc),
            ports: self.ports.share()?,
        })
    }

    /// Whether the store has the frame.
    pub fn has_frame(&self, frame: Name) -> bool
        ensures { result ≡ is_named self.now.frames frame }
    {
        is_among(self.frames.as_slice(), frame) || self.settled.has_frame(frame)
    }

    /// What the first binding of the variable binds it to; `None` exactly where it has no binding.
    #[inline(always)]
    pub fn first_binding(&self, variable: Var) -> Option<Term>
        ensures { result ≡ found_in self.now.bindings variable }
    {
        match self.settled.first_binding(variable) {
            Some(term) => Some(term),
            None => first_in(&self.bindings, variable),
        }
    }

    /// Whether the store has nothing of a frame, so that none of its variables is bound.
    pub fn binds_none(&self, frame: Name) -> bool
        ensures { result ≡ true → BindNone self.now.bindings frame }
    {
        self.settled.binds_none(frame) && binds_none(&self.bindings, frame)
    }

    /// The tail of the port; `None` exactly where the store has no such port.
    pub fn port_tail(&self, port: Name) -> Option<Term>
        ensures { result ≡ lookup (same_name port) self.now.ports }
    {
        self.ports.tail(port)
    }

    /// The frames, in increasing order of names.
    pub fn frames(&self) -> Result<Vec<Name>, AllocError>
        ensures { IfOk result (λ list. list.items ≡ self.now.frames) }
    {
        let mut list = self.settled.frames(self.alloc)?;
        for frame in self.frames.as_slice() {
            put_frame(&mut list, *frame)?;
        }
        Ok(list)
    }

    /// The bindings in increasing order of variables, those of one variable in the order in which they were added.
    pub fn bindings(&self) -> Result<SmallVec<(Var, Term), 4>, AllocError>
        ensures { IfOk result (λ list. list.items ≡ self.now.bindings) }
    {
        let mut list = self.settled.bindings(self.alloc)?;
        for binding in &self.bindings {
            put_binding(&mut list, binding.0, binding.1)?;
        }
        Ok(list)
    }

    /// The ports with their tails, in increasing order of names.
    pub fn ports(&self) -> Result<Vec<(Name, Term)>, AllocError>
        ensures { IfOk result (λ list. list.items ≡ self.now.ports) }
    {
        self.ports.entries(self.alloc)
    }
}

impl Clone for Store {
    ghost is_clone = { λ s t. t ≡ s };

    fn clone(&self) -> Result<Store, AllocError> {
        self.share_to_tell()
    }
}

// Further frames behind these; the list of them itself where there are no others.
fn frames_behind(
    alloc: Global,
    frames: &[Name],
    further: SmallVec<Name, 1>,
) -> Result<SmallVec<Name, 1>, AllocError>
    ensures { IfOk result (λ list. list.items ≡ frames.now ++ further.items) }
{
    if frames.is_empty() {
        return Ok(further);
    }
    let mut all = SmallVec::from_slice(alloc, frames)?;
    all.extend_from_slice(further.as_slice())?;
    Ok(all)
}

// Further bindings behind these; the list of them itself where there are no others.
fn bindings_behind(
    alloc: Global,
    bindings: &[(Var, Term)],
    further: Vec<(Var, Term)>,
) -> Result<Vec<(Var, Term)>, AllocError>
    ensures { IfOk result (λ list. list.items ≡ bindings.now ++ further.items) }
{
    if bindings.is_empty() {
        return Ok(further);
    }
    let mut all = Vec::from_slice(alloc, bindings)?;
    all.extend_from_slice(further.as_slice())?;
    Ok(all)
}
