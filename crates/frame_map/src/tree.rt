//! A tree by the digits of numbers.

ghost use Rattle.std.specs.Prelude.{◌≡◌, ◌+◌, ◌-◌, ◌<◌, ◌≤◌, ◌^◌, ◌++◌, [], true, max, vec_len, None, option_copied, IfOk, OnOk, OnErr};
ghost use Rattle.name_map.specs.Pages.{listed};
ghost use Rattle.frame_map.specs.Contents.{contents, all_contents, of_children, ClonesAreEqual, Same, PutsMade, AllFit, FitsIn, IsTree, IsTreeFrom};

use crate::change::Change;
use crate::digits::{LEAF, first_digit, last_digits, narrower};
use crate::slots::{change_slot, push_slots};
use akl_terms::Name;
use std::alloc::{AllocError, Global};
use std::sync::Arc;

/// Values by numbers. Trees share nodes, and a change makes a node anew only where something else holds it.
#[derive(Drop)]
pub(crate) enum Tree<V> {
    Empty,
    /// The values of numbers that follow one another from 0 on.
    Leaf(Arc<Vec<Option<V>>>),
    /// The trees of the numbers with the first digit 0, 1, .., and how many binary digits these leave to each. The lists
    /// are only as long as needed.
    Inner(u32, Arc<Vec<Tree<V>>>),
}

// Makes the children up to this one.
fn make_children<V: Drop>(children: &mut Vec<Tree<V>>, index: usize) -> Result<(), AllocError>
    ensures there { OnOk result (index < vec_len children.new) }
    ensures most { vec_len children.new ≤ max (vec_len children.old) (index + 1) }
    ensures same { (w : _) → Same (of_children w (all_contents children.old.items)) (of_children w (all_contents children.new.items)) }
    ensures fit { (w : _) → AllFit w (all_contents children.old.items) → AllFit w (all_contents children.new.items) }
{
    while children.len() <= index {
        children.push(Tree::Empty)?;
    }
    Ok(())
}

impl<V: Drop> Clone for Tree<V> {
    ghost use Rattle.frame_map.specs.Contents.{contents};

    ghost is_clone = { λ t u. contents u ≡ contents t };

    /// The same nodes again. Want of memory comes from a full count of owners.
    fn clone(&self) -> Result<Tree<V>, AllocError> {
        match self {
            Tree::Empty => Ok(Tree::Empty),
            Tree::Leaf(slots) => Ok(Tree::Leaf(Arc::try_clone(slots)?)),
            Tree::Inner(below, children) => Ok(Tree::Inner(*below, Arc::try_clone(children)?)),
        }
    }
}

impl<V> Tree<V> {
    #[inline(always)]
    pub(crate) fn get(&self, number: u64) -> Option<&V>
        requires { IsTree self.now }
        ensures { option_copied result ≡ (contents self.now).value number }
    {
        let mut at = self;
        let mut rest = number;
        while let Tree::Inner(below, children) = at {
            let children: &Vec<Tree<V>> = children;
            at = children.get(first_digit(rest, *below))?;
            rest = last_digits(rest, *below);
        }
        let Tree::Leaf(slots) = at else {
            return None;
        };
        let slots: &Vec<Option<V>> = slots;
        slots.get(rest as usize)?.as_ref()
    }
}

impl<V: Clone + Drop> Tree<V> {
    /// Adds the values with their names at the end of a list, in increasing order of numbers. The number 0 of the tree
    /// stands for `first`.
    pub(crate) fn push_entries(
        &self,
        worker: u32,
        first: u64,
        list: &mut Vec<(Name, V)>,
    ) -> Result<(), AllocError>
        requires clones { ClonesAreEqual V.is_clone }
        requires numbers { IsTreeFrom first self.now }
        ensures { OnOk result ((w : _) → FitsIn w self.now → list.new.items ≡ list.old.items ++ listed worker first (2 ^ w) (λ n. (contents self.now).value (n - first)) []) }
    {
        match self {
            Tree::Empty => Ok(()),
            Tree::Leaf(slots) => {
                let slots: &Vec<Option<V>> = slots;
                push_slots(slots, worker, first, list)
            }
            Tree::Inner(below, children) => {
                let children: &Vec<Tree<V>> = children;
                for index in 0..children.len() {
                    let number = first + ((index as u64) << *below);
                    children[index].push_entries(worker, number, list)?;
                }
                Ok(())
            }
        }
    }
}

impl<V: Drop> Tree<V> {
    /// The tree as the first child of a node whose children have `width` binary digits. An empty tree stays without a
    /// node.
    pub(crate) fn below_node(&self, alloc: Global, width: u32) -> Result<Tree<V>, AllocError>
        requires { FitsIn width self.now }
        ensures same { IfOk result (λ t. Same (contents self.now) (contents t)) }
        ensures fits { IfOk result (λ t. (w : _) → width < w → FitsIn w t) }
    {
        if let Tree::Empty = self {
            return Ok(Tree::Empty);
        }
        let mut children = Vec::new(alloc);
        children.push(self.clone()?)?;
        Ok(Tree::Inner(width, Arc::new(alloc, children)?))
    }

    // A node without values, for numbers of `width` binary digits.
    fn new_node(alloc: Global, width: u32) -> Result<Tree<V>, AllocError>
        ensures none { IfOk result (λ t. (n : _) → (contents t).value n ≡ None) }
        ensures fits { IfOk result (λ t. FitsIn width t) }
        ensures node { IfOk result (λ t. (contents t).has_node ≡ true) }
    {
        if width <= LEAF {
            let slots = Vec::with_capacity(alloc, 1 << width)?;
            return Ok(Tree::Leaf(Arc::new(alloc, slots)?));
        }
        Ok(Tree::Inner(narrower(width), Arc::new(alloc, Vec::new(alloc))?))
    }

    // Makes a node where there is none.
    fn begin(&mut self, alloc: Global, width: u32) -> Result<(), AllocError>
        requires { FitsIn width self.old }
        ensures same { Same (contents self.old) (contents self.new) }
        ensures fits { FitsIn width self.new }
        ensures node { OnOk result ((contents self.new).has_node ≡ true) }
    {
        if let Tree::Empty = self {
            *self = Tree::new_node(alloc, width)?;
        }
        Ok(())
    }
}

impl<V: Clone + Drop> Tree<V> {
    /// Changes the value of a number. An `Err`, for want of memory, leaves all values as they were.
    pub(crate) fn change<C: Change<V>>(
        &mut self,
        alloc: Global,
        width: u32,
        number: u64,
        change: C,
    ) -> Result<(), AllocError>
        requires clones { ClonesAreEqual V.is_clone }
        requires fits { FitsIn width self.old }
        requires number { number < 2 ^ width }
        requires width { width ≤ 64 }
        ensures made { OnOk result (PutsMade (C.makes change) (contents self.old) (contents self.new) number) }
        ensures unchanged { OnErr result (Same (contents self.old) (contents self.new)) }
        ensures fits { FitsIn width self.new }
    {
        self.begin(alloc, width)?;
        match self {
            Tree::Empty => unreachable!(),
            Tree::Leaf(slots) => {
                let slots = Arc::make_mut(slots)?;
                change_slot(slots, number as usize, change)
            }
            Tree::Inner(below, children) => {
                let children = Arc::make_mut(children)?;
                let index = first_digit(number, *below);
                make_children(children, index)?;
                children[index].change(alloc, *below, last_digits(number, *below), change)
            }
        }
    }
}
