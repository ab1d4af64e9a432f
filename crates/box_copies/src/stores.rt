//! The store of a copy.

ghost use Rattle.std.specs.Prelude.{◌≡◌, IfOk, OnOk, MatchOption, map, true};
ghost use Rattle.local_store.specs.Stored.{nothing, with_bindings};
ghost use Rattle.box_copies.specs.Made.{LeadsOlder};
ghost use Rattle.box_copies.specs.Renamer.{swapped_name, term_by, port_by, binding_by, with_frames, with_ports, store_by};

use crate::names::NewNames;
use akl_terms::{Name, Templates, Term, Var};
use local_store::Store;
use rational_unify::leads_older;
use std::alloc::{AllocError, Global};

/// A term under new names.
pub(crate) fn swapped_term(names: &NewNames, term: Term) -> Term
    ensures { result ≡ term_by (swapped_name names.now) term }
{
    match term {
        Term::Mol { node, frame } => Term::Mol {
            node,
            frame: names.swapped(frame),
        },
        Term::Int(number) => Term::Int(number),
        Term::Port(port) => Term::Port(names.swapped(port)),
    }
}

// Frames get new names.
fn swap_frames(names: &NewNames, frames: &mut Vec<Name>)
    ensures { frames.new.items ≡ map (swapped_name names.now) frames.old.items }
{
    for frame in frames.iter_mut() {
        *frame = names.swapped(*frame);
    }
}

// A binding under new names.
fn swapped_binding(names: &NewNames, binding: &(Var, Term)) -> (Var, Term)
    ensures { result ≡ binding_by (swapped_name names.now) binding.now }
{
    let variable = Var {
        frame: names.swapped(binding.0.frame),
        index: binding.0.index,
    };
    (variable, swapped_term(names, binding.1))
}

// Bindings get new names.
fn swap_bindings(names: &NewNames, bindings: &mut [(Var, Term)])
    ensures { bindings.new ≡ map (binding_by (swapped_name names.now)) bindings.old }
{
    for binding in bindings.iter_mut() {
        *binding = swapped_binding(names, binding);
    }
}

// The frames and bindings of a store, under new names; `None` where the bindings are to lead to older variables and don't.
fn copied_bindings(
    alloc: Global,
    names: &NewNames,
    templates: &Templates,
    older: bool,
    store: &Store,
) -> Result<Option<Store>, AllocError>
    ensures { IfOk result (λ found. MatchOption found (older ≡ true) (λ s. (s ≡ with_bindings (with_frames nothing (map (swapped_name names.now) store.now.frames)) (map (binding_by (swapped_name names.now)) store.now.bindings))
        × LeadsOlder templates.now.nodes (swapped_name names.now) older store.now)) }
{
    let mut bindings = store.bindings()?;
    swap_bindings(names, bindings.as_mut_slice());
    if older && !leads_older(templates, bindings.as_slice()) {
        return Ok(None);
    }
    let mut frames = store.frames()?;
    swap_frames(names, &mut frames);
    let copy = Store::of(alloc, frames.as_slice(), bindings.as_slice())?;
    Ok(Some(copy))
}

// The ports come, under new names.
fn add_ports(names: &NewNames, ports: &[(Name, Term)], copy: &mut Store) -> Result<(), AllocError>
    ensures { OnOk result (copy.new ≡ with_ports copy.old (map (port_by (swapped_name names.now)) ports.now)) }
{
    for (port, tail) in ports {
        copy.set_port(names.swapped(*port), swapped_term(names, *tail))?;
    }
    Ok(())
}

/// A store under new names; `None` where its bindings are to lead to older variables, and don't under these.
pub(crate) fn copied_store(
    alloc: Global,
    names: &NewNames,
    templates: &Templates,
    older: bool,
    store: &Store,
) -> Result<Option<Store>, AllocError>
    ensures { IfOk result (λ found. MatchOption found (older ≡ true) (λ s. (s ≡ store_by names.now store.now) × LeadsOlder templates.now.nodes (swapped_name names.now) older store.now)) }
{
    let Some(mut copy) = copied_bindings(alloc, names, templates, older, store)? else {
        return Ok(None);
    };
    add_ports(names, store.ports()?.as_slice(), &mut copy)?;
    Ok(Some(copy))
}
