//! What a pass knows of its deque. No value of these types is made.
use std::collections::LinkedList;

/// What one hand has taken from a deque, in order.
pub struct Account {
    pub hand: u64,
    pub taken: LinkedList<u64>,
}

/// What a pass knows: the owner's, how many calls of `take` its hand began, what was pushed, and how many passes were
/// made for hands; each, what some hands have taken.
pub struct View {
    pub calls: u64,
    pub pushed: LinkedList<u64>,
    pub passes: u64,
    pub accounts: LinkedList<Account>,
}
