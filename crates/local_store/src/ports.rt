//! The ports of a store.
ghost use Rattle.std.specs.Prelude.{◌≡◌, [], IfOk, IfErr};
ghost use Rattle.std.specs.Map.{lookup};
ghost use Rattle.std.specs.BTreeMap.{insert_entry};
ghost use Rattle.akl_terms.specs.Names.{same_name, name_cmp};
ghost use Rattle.local_store.specs.Parts.{all_ports};

use akl_terms::{Name, Term};
use frame_map::FrameMap;
use std::alloc::{AllocError, Global};
use std::marker::Model;
use std::sync::Arc;

/// Ports with their tails, in increasing order of names. Copies share one map, and a change of one makes a map of its own,
/// which shares nodes, where another copy is there. Where there are no ports it takes no memory.
#[derive(Drop)]
pub(crate) struct Ports {
    tails: Option<Arc<FrameMap<Term>>>,
}

impl Model for Ports {
    ghost use Rattle.std.specs.Prelude.{List};
    ghost use Rattle.akl_terms.specs.declared.name.Name.{Name};
    ghost use Rattle.akl_terms.specs.declared.term.Term.{Term};
    ghost use Rattle.local_store.specs.Kept.{ports_of};

    ghost Value = { List (Name × Term) };

    ghost view = { λ p. ports_of p.tails };
}

impl Ports {
    /// Nothing is there.
    pub(crate) fn new() -> Ports
        ensures { result ≡ [] }
    {
        Ports { tails: None }
    }

    /// The same again. Want of memory comes only where a count of holders is full.
    pub(crate) fn share(&self) -> Result<Ports, AllocError>
        ensures { IfOk result (λ p. p ≡ self.now) }
    {
        Ok(Ports {
            tails: match &self.tails {
                Some(tails) => Some(Arc::try_clone(tails)?),
                None => None,
            },
        })
    }

    /// The tail of a port; `None` exactly where there is no such port.
    pub(crate) fn tail(&self, port: Name) -> Option<Term>
        ensures { result ≡ lookup (same_name port) self.now }
    {
        match &self.tails {
            Some(tails) => tails.get(port).copied(),
            None => None,
        }
    }

    /// Also has the port; one that is there takes the new tail, in place where no copy shares the map. An `Err`, for want of
    /// memory, leaves all as it was.
    pub(crate) fn set(&mut self, alloc: Global, port: Name, tail: Term) -> Result<(), AllocError>
        ensures set { IfOk result (λ _. self.new ≡ insert_entry name_cmp self.old port tail) }
        ensures unchanged { IfErr result (λ _. self.new ≡ self.old) }
    {
        if let Some(shared) = &mut self.tails {
            if let Some(tails) = Arc::get_mut(shared) {
                return tails.insert(port, tail);
            }
        }
        let tails = self.with(alloc, port, tail)?;
        self.tails = Some(Arc::new(alloc, tails)?);
        Ok(())
    }

    /// Also has these ports, of which the last is set first. An `Err`, for want of memory, leaves all as it was.
    pub(crate) fn set_all(
        &mut self,
        alloc: Global,
        ports: &[(Name, Term)],
    ) -> Result<(), AllocError>
        ensures set { IfOk result (λ _. self.new ≡ all_ports self.old ports.now) }
        ensures unchanged { IfErr result (λ _. self.new ≡ self.old) }
    {
        match ports {
            [] => Ok(()),
            [port] => self.set(alloc, port.0, port.1),
            _ => {
                *self = self.with_all(alloc, ports)?;
                Ok(())
            }
        }
    }

    // The ports with others, of which the last is set first.
    fn with_all(&self, alloc: Global, others: &[(Name, Term)]) -> Result<Ports, AllocError>
        ensures { IfOk result (λ ports. ports ≡ all_ports self.now others.now) }
    {
        let mut ports = self.share()?;
        let mut left = others.len();
        while left > 0 {
            left -= 1;
            ports.set(alloc, others[left].0, others[left].1)?;
        }
        Ok(ports)
    }

    // A map that also has the port.
    fn with(&self, alloc: Global, port: Name, tail: Term) -> Result<FrameMap<Term>, AllocError>
        ensures { IfOk result (λ tails. tails ≡ insert_entry name_cmp self.now port tail) }
    {
        let mut tails = match &self.tails {
            Some(tails) => tails.share()?,
            None => FrameMap::new(alloc),
        };
        tails.insert(port, tail)?;
        Ok(tails)
    }

    /// The ports with their tails.
    pub(crate) fn entries(&self, alloc: Global) -> Result<Vec<(Name, Term)>, AllocError>
        ensures { IfOk result (λ list. list.items ≡ self.now) }
    {
        let mut list = Vec::new(alloc);
        if let Some(tails) = &self.tails {
            tails.push_entries(&mut list)?;
        }
        Ok(list)
    }
}
