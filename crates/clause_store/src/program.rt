//! Programs.

ghost use Rattle.std.specs.Prelude.{◌≡◌, ◌<◌, ◌≤◌, ◌+◌, ◌*◌, IfOk, length, map};
ghost use Rattle.std.specs.List.{All};
ghost use Rattle.akl_terms.specs.Template.{IsArranged, AreDistinct};
ghost use Rattle.akl_syntax.specs.Answers.{clauses_view};
ghost use Rattle.akl_syntax.specs.Sizes.{clauses_size};
ghost use Rattle.clause_keys.specs.Keys.{called_by, defined_by, AreUnique};
ghost use Rattle.clause_keys.specs.Conditions.{IsClauseLoadable, AreUnmixed, AreAlone};
ghost use Rattle.clause_store.specs.Loaded.{IsProgramOf};
ghost use Rattle.clause_store.specs.Fitting.{HasFittingCalls};
ghost use Rattle.clause_store.specs.Collecting.{HasCollecting};
ghost use Rattle.clause_store.specs.Putting.{IsCellPut};

use crate::definitions::extend;
use akl_syntax::SourceClause;
use akl_terms::{Items, Node, Program, Templates};
use clause_keys::Callees;
use std::alloc::{AllocError, Global};

/// What templates always keep: the arguments of each node stand before it, and no text has two symbols.
pub fn in_order(templates: &Templates)
    ensures arranged { IsArranged templates.now.nodes }
    ensures distinct { AreDistinct templates.now.symbols }
{
    let _ = templates.len();
    let _ = templates.symbols();
}

/// Puts the variables 0 and 1, the list's cell over them and the empty list as neighbours, and gives the first.
fn put_cell(templates: &mut Templates) -> Result<u32, AllocError>
    requires nodes { length templates.old.nodes + 4 < 4294967296 }
    requires symbols { length templates.old.symbols + 2 < 4294967295 }
    ensures { IfOk result (λ n. IsCellPut templates.old templates.new n) }
{
    let cell = templates.intern(".")?;
    let empty = templates.intern("[]")?;
    let first = templates.push(&[Node::Var(0), Node::Var(1)])?;
    templates.push(&[
        Node::Struct {
            symbol: cell,
            first,
            count: 2,
        },
        Node::Struct {
            symbol: empty,
            first,
            count: 0,
        },
    ])?;
    Ok(first)
}

/// Loads the clauses of a program.
///
/// Definitions are in order of first occurrence, and the clauses of each in the order in which they are written. Each
/// call has as many arguments as the clauses that it calls. A definition that collects has one clause. It is an error
/// only where memory runs out.
pub fn load(alloc: Global, clauses: Vec<SourceClause>) -> Result<Program, AllocError>
    requires loadable { All (IsClauseLoadable (map defined_by (clauses_view clauses))) (clauses_view clauses) }
    requires unmixed { AreUnmixed (clauses_view clauses) }
    requires alone { AreAlone (clauses_view clauses) }
    requires small { clauses_size (clauses_view clauses) ≤ 700000000 }
    ensures program { IfOk result (λ p. IsProgramOf (clauses_view clauses) p) }
    ensures calls { IfOk result HasFittingCalls }
    ensures collecting { IfOk result HasCollecting }
    ensures unique { IfOk result (λ p. AreUnique (map called_by p.definitions)) }
    ensures nodes { IfOk result (λ p. length p.templates.nodes ≤ 4 * clauses_size (clauses_view clauses) + 4) }
    ensures symbols { IfOk result (λ p. length p.templates.symbols ≤ 4 * clauses_size (clauses_view clauses) + 2) }
    ensures definitions { IfOk result (λ p. length p.definitions ≤ length clauses.items) }
{
    let mut templates = Templates::new(alloc);
    let cell = put_cell(&mut templates)?;
    let mut callees = Callees::new(alloc);
    let mut definitions = Vec::new(alloc);
    extend(
        alloc,
        &mut callees,
        &mut templates,
        &mut definitions,
        clauses,
    )?;
    in_order(&templates);
    Ok(Program {
        templates,
        definitions: Items::new(definitions),
        cell,
    })
}
