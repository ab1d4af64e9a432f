//! Names, variables and places.

/// A name that a worker drew: of a box, a frame, a goal or a port.
///
/// Names are ordered by worker, then by number. Worker 0 drew the names of the query.
#[derive(Clone, Copy, Debug, Default, PartialEq, Eq, PartialOrd, Ord, Hash)]
pub struct Name {
    /// The worker that drew it, 0 to 16.
    pub worker: u32,
    /// The place in the worker's own count, from 0.
    pub number: u64,
}

/// A variable: one of those of a frame.
///
/// Variables are ordered by frame, then by index.
#[derive(Clone, Copy, Debug, Default, PartialEq, Eq, PartialOrd, Ord, Hash)]
pub struct Var {
    pub frame: Name,
    /// Which variable of the frame, from 0.
    pub index: u32,
}

/// Where a rule applies: at a goal, or at a box. Goals stand before boxes, each by name.
#[derive(Clone, Copy, Debug, PartialEq, Eq, PartialOrd, Ord)]
pub enum Place {
    Goal(Name),
    Box(Name),
}
