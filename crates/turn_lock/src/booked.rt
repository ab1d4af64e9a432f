//! What a locked value means to a proof.
ghost use Rattle.std.specs.Prelude.{ℕ, List};

/// A value with a part that never changes and a history that only grows.
///
/// It has no call at run time: its members are for contracts alone.
pub trait Booked {
    /// The fixed part. No value of it is made.
    type Fixed;
    /// An entry of the history. No value of it is made.
    type Entry;

    /// The part that is the same in every value of one lock.
    ghost fixed: { Self → Self.Fixed };

    /// The entries so far, the oldest first.
    ghost history: { Self → List Self.Entry };

    /// The number of the pass that made an entry.
    ghost maker: { Self.Entry → ℕ };
}
