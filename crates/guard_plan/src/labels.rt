//! Labels of plans.

ghost use Rattle.std.specs.Prelude.{◌≡◌, Some, None};
ghost use Rattle.box_tree.specs.Views.{IsViewOf};

use akl_model::{Label, Rule};
use akl_terms::Name;
use box_tree::View;

/// The label of a rule for an alternative, at the view's place and by its worker.
pub fn label_for(view: &View, rule: Rule, alternative: Name) -> Label
    ensures label { result ≡ record { rule = rule; place = view.now.place; alternative = Some alternative; worker = view.now.worker } }
    ensures seen { IsViewOf view.now }
{
    Label {
        rule,
        place: view.place(),
        alternative: Some(alternative),
        worker: view.worker(),
    }
}

/// The label of a rule at the view's place, by its worker.
pub fn label_of(view: &View, rule: Rule) -> Label
    ensures label { result ≡ record { rule = rule; place = view.now.place; alternative = None; worker = view.now.worker } }
    ensures seen { IsViewOf view.now }
{
    Label {
        rule,
        place: view.place(),
        alternative: None,
        worker: view.worker(),
    }
}
