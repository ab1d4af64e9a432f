//! The variables that labels list as bound are marked.

ghost use Rattle.std.specs.Prelude.{◌≡◌};
ghost use Rattle.table_laws.specs.Marks.{Marks};
ghost use Rattle.box_tree.specs.StoreMarks.{stores_of};
ghost use Rattle.box_tree.specs.Tables.{table_of};

use crate::table::Table;
use akl_terms::{Name, Var};

impl Table {
    /// The mark of a variable. Where none are kept it is the number of all labels.
    pub(crate) fn mark_of(&self, variable: Var) -> u64
        ensures { result ≡ (table_of self.now).mark_of variable }
    {
        match &self.marks {
            Some(marks) => marks.variables.get(variable),
            None => self.steps,
        }
    }

    /// The marks of these variables become the number of all labels, and so may those of others: of the variables of a frame
    /// whose name is `first` or one that the same worker draws after it, and of all. It never fails.
    pub(crate) fn mark(&mut self, variables: &[Var], first: Name)
        ensures marks { (t : _) → t.marks ≡ self.old.marks → Marks variables.now (table_of t) (table_of self.new) }
        ensures stores { stores_of self.new.marks ≡ stores_of self.old.marks }
        ensures rest { self.new ≡ record self.old { marks = self.new.marks } }
    {
        let number = self.steps;
        if let Some(marks) = &mut self.marks {
            marks.variables.mark(variables, first, number);
        }
    }
}
