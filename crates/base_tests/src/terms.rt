//! Terms: what templates have, how names are ordered, and that steps take no room.

ghost use Rattle.std.specs.Prelude.{◌≡◌, ◌<◌, []};

use akl_terms::{Name, Node, Place, Seen, Steps, Templates, Term, Var, equality, order, standing};
use std::alloc::AllocError;
use std::marker::Brand;
use std::sync::ledger::{Blank, Ledger};

const FRAME: Name = Name {
    worker: 0,
    number: 1,
};

/// Whether a symbol and nodes are there as they are put in, and are seen.
fn are_there(templates: &mut Templates) -> Result<bool, AllocError>
    requires nodes { templates.old.nodes ≡ [] }
    requires symbols { templates.old.symbols ≡ [] }
{
    let symbol = templates.intern("f")?;
    templates.push(&[Node::Var(3), Node::Int(-7)])?;
    let whole = Node::Struct {
        symbol,
        first: 0,
        count: 2,
    };
    let last = templates.push(&[whole])?;
    Ok(
        last == 2
            && templates.len() == 3
            && templates.node(2) == whole
            && templates.symbols() == 1
            && templates.symbol(0) == "f"
            && templates.number_of("g").is_none()
            && are_seen(templates, symbol),
    )
}

#[test]
fn nodes_are_looked_at_under_a_frame(rt: HostRuntime) -> Result<(), AllocError> {
    let mut templates = Templates::new(rt.alloc());
    assert!(rt; templates.is_empty());
    assert!(rt; are_there(&mut templates)?);
    Ok(())
}

/// Whether variable 3, the symbol over two nodes, and a port are seen.
fn are_seen(templates: &Templates, symbol: u32) -> bool {
    let under = |node: u32| Term::Mol { node, frame: FRAME };
    let variable = Var {
        frame: FRAME,
        index: 3,
    };
    let whole = Seen::Struct {
        symbol,
        first: 0,
        count: 2,
        frame: FRAME,
    };
    templates.look(under(0)) == Seen::Free(variable)
        && templates.look(under(2)) == whole
        && templates.look(Term::Port(FRAME)) == Seen::Port(FRAME)
}

/// Whether names are ordered by worker, variables by frame, and places by kind.
fn are_ordered() -> bool {
    let early = Name {
        worker: 1,
        number: 9,
    };
    let late = Name {
        worker: 2,
        number: 3,
    };
    let inner = Var {
        frame: late,
        index: 0,
    };
    let outer = Var {
        frame: early,
        index: 7,
    };
    early < late
        && FRAME < early
        && outer < inner
        && Place::Goal(late) < Place::Box(early)
        && Place::Box(early) < Place::Box(late)
}

fn two_steps<L: Ledger>(blank: Blank)
    requires name { blank.name ≡ L.name }
    requires parts { blank.parts ≡ L.parts }
    requires some { 0 < blank.parts }
{
    let mut steps = Steps::<L>::new(blank);
    steps.tick();
    steps.tick();
}

#[test]
fn names_are_ordered_and_steps_take_no_room(rt: HostRuntime) {
    assert!(rt; are_ordered());
    two_steps::<Brand>(Blank::new(1));
    equality();
    standing();
    order();
    assert!(rt; std::mem::size_of::<Steps<Brand>>() == 0);
}
