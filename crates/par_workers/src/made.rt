//! What a turn of a worker made.

ghost use Rattle.std.specs.Prelude.{◌≡◌, All};
ghost use Rattle.std.proofs.Props.{props};

use box_tree::{Plan, Table};
use std::snapshot::Snapshot;

/// A plan whose labels were made, all by one worker, with the table after them. It remembers them in no bytes.
#[derive(Drop)]
pub struct Made {
    pub plan: Snapshot<Plan>,
    pub table: Snapshot<Table>,
    ghost by_one: { All (λ l. l.worker ≡ plan.value.label.worker) plan.value.more } by { Prim.hlevel props },
}

impl Made {
    /// This plan, with this table after its labels.
    pub(crate) fn of(plan: Snapshot<Plan>, table: &Table) -> Made
        requires { All (λ l. l.worker ≡ plan.value.label.worker) plan.value.more }
        ensures plan { result.plan.value ≡ plan.value }
        ensures table { result.table.value ≡ table.now }
    {
        Made {
            plan,
            table: Snapshot::of(table),
        }
    }
}
