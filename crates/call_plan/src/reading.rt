//! What the plan of a call read.

ghost use Rattle.std.specs.Prelude.{◌≡◌, IfOk};
ghost use Rattle.akl_terms.specs.declared.name.Place.{Place};
ghost use Rattle.call_plan.specs.ReadCall.{IsReadOfCall};

use akl_model::Item;
use akl_terms::{Name, Templates, Var};
use box_tree::View;
use guard_plan::{goal_and_sets, reads_of};
use std::alloc::{AllocError, Global};

// What the plan of a call at a goal of a view read that binds these variables. Where goals of guards were evaluated in an
// alternative whose bindings aren't plain, the plan goes by sets of goals: what its head is equal to may be bound later so
// that it clashes before they are evaluated.
pub(crate) fn call_reads(
    alloc: Global,
    templates: &Templates,
    view: &View,
    goal: Name,
    plainly: bool,
    binds: &[Var],
) -> Result<Vec<Item>, AllocError>
    requires place { view.now.place ≡ Place.Goal goal }
    requires nodes { templates.now.nodes ≡ view.now.table.program.templates.nodes }
    ensures { IfOk result (λ items. IsReadOfCall view.now goal plainly binds.now items.items) }
{
    if plainly {
        reads_of(alloc, templates, view, goal, binds)
    } else {
        goal_and_sets(alloc, goal, view.path())
    }
}
