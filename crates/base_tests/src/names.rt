//! `name_map`: names of several workers, far apart and side by side, come, change and go.

use akl_terms::Name;
use name_map::{BoxedMap, NameMap};
use std::alloc::{AllocError, Global};

/// Names of several workers in order, some in one page, some in one chunk, some far apart.
const NAMES: [Name; 8] = [
    Name {
        worker: 0,
        number: 0,
    },
    Name {
        worker: 0,
        number: 7,
    },
    Name {
        worker: 0,
        number: 8,
    },
    Name {
        worker: 0,
        number: 511,
    },
    Name {
        worker: 0,
        number: 512,
    },
    Name {
        worker: 3,
        number: 7,
    },
    Name {
        worker: 3,
        number: 4096,
    },
    Name {
        worker: 16,
        number: 9,
    },
];

/// Gives each name its place among the names.
fn fill(map: &mut NameMap<usize>) -> Result<(), AllocError> {
    for (at, name) in NAMES.iter().enumerate() {
        map.insert(*name, 100)?;
        if let Some(place) = map.get_mut(*name) {
            *place = at;
        }
    }
    Ok(())
}

/// Whether a map lists the names, and no other.
fn lists_all(alloc: Global, map: &NameMap<usize>) -> Result<bool, AllocError> {
    let mut listed = Vec::new(alloc);
    map.push_names(&mut listed)?;
    Ok(listed.as_slice() == NAMES.as_slice())
}

/// Whether each name has its place, which is taken out.
fn give_back(map: &mut NameMap<usize>) -> bool {
    for (at, name) in NAMES.iter().enumerate() {
        if map.get(*name) != Some(&at) || map.remove(*name) != Some(at) || map.contains(*name) {
            return false;
        }
    }
    true
}

/// Whether a name has the value that it got, which is taken out.
fn is_given_back(map: &mut BoxedMap<usize>, name: Name) -> Result<bool, AllocError> {
    map.insert(name, 100)?;
    if let Some(value) = map.get_mut(name) {
        *value = 7;
    }
    Ok(map.get(name) == Some(&7) && map.remove(name) == Some(7) && map.get(name).is_none())
}

#[test]
fn names_lead_to_their_values(rt: HostRuntime) -> Result<(), AllocError> {
    let mut map = NameMap::new(rt.alloc());
    for _ in 0..2 {
        fill(&mut map)?;
        assert!(rt; lists_all(rt.alloc(), &map)?);
        assert!(rt; give_back(&mut map));
    }
    Ok(())
}

#[test]
fn names_lead_to_values_in_boxes(rt: HostRuntime) -> Result<(), AllocError> {
    let mut map = BoxedMap::new(rt.alloc());
    for name in NAMES {
        assert!(rt; is_given_back(&mut map, name)?);
    }
    Ok(())
}
