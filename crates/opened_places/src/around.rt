//! What stands about a label's place.

ghost use Rattle.std.specs.Prelude.{◌≡◌, option_map, is_some, IfSome, Some};
ghost use Rattle.table_laws.specs.Writes.{home_in, holder_in_row};
ghost use Rattle.box_tree.specs.Tables.{table_of};
ghost use Rattle.box_tree.specs.Drops.{IsOfRun};
ghost use Rattle.box_tree.specs.Views.{is_there};
ghost use Rattle.opened_places.specs.Exact.{IsAround};

use akl_model::Label;
use akl_terms::Name;
use box_tree::Table;

/// The choice that holds a box.
#[derive(Clone, Copy)]
pub struct Holder {
    /// Its name.
    pub goal: Name,
    /// The box in which it stands.
    pub home: Name,
}

/// What stands about a label's place before its step is made.
#[derive(Clone, Copy)]
pub struct Around {
    /// The box of the place: the place itself, or the box in which its goal stands.
    pub home: Name,
    /// The choice that holds this box; `None` for a root box.
    pub holder: Option<Holder>,
    /// The choice that holds the label's alternative; nothing is said of it where the label names none.
    pub choice: Option<Name>,
}

// The choice that holds a box, with its own box.
fn holder_at(table: &Table, name: Name) -> Option<Holder>
    requires { IsOfRun table.now }
    ensures holder { option_map (λ h. h.goal) result ≡ holder_in_row ((table_of table.now).box_of name) }
    ensures home { IfSome result (λ h. home_in ((table_of table.now).goal_of h.goal) ≡ Some h.home) }
{
    let Some(goal) = table.holder_of(name) else {
        return None;
    };
    let Some(home) = table.home_of(goal) else {
        return None;
    };
    Some(Holder { goal, home })
}

/// What stands about a label's place; `None` exactly where the place isn't there. It takes as long as a few look-ups.
pub fn around_of(table: &Table, label: Label) -> Option<Around>
    requires { IsOfRun table.now }
    ensures around { IfSome result (IsAround (table_of table.now) label) }
    ensures there { is_some result ≡ is_there (table_of table.now) label.place }
{
    let (home, _) = table.sight_of(label.place)?;
    let choice = match label.alternative {
        Some(name) => table.holder_of(name),
        None => None,
    };
    Some(Around {
        home,
        holder: holder_at(table, home),
        choice,
    })
}
