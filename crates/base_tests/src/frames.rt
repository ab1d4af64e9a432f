//! `frame_map`: names of two workers whose numbers have few and many digits; maps that share nodes stay as they were;
//! use from other threads.

use akl_terms::Name;
use frame_map::FrameMap;
use std::alloc::{AllocError, Global};
use std::process::Abort;
use std::thread::join;

/// What stands at each name.
type Values = [Option<u64>; 16];

/// The names in increasing order, eight of each worker, with numbers of 1 to 64 binary digits.
fn name(at: u64) -> Name {
    Name {
        worker: if at < 8 { 0 } else { 3 },
        number: u64::MAX >> (63 - at % 8 * 9),
    }
}

/// Whether a map has these values and no other, in the order of the names.
fn agree(alloc: Global, map: &FrameMap<u64>, values: &Values) -> Result<bool, AllocError> {
    let mut entries = Vec::new(alloc);
    map.push_entries(&mut entries)?;
    let mut pairs = entries.iter();
    for (at, value) in values.iter().enumerate() {
        let name = name(at as u64);
        if map.get(name) != value.as_ref() {
            return Ok(false);
        }
        if let Some(value) = value {
            match pairs.next() {
                Some((found, number)) if *found == name && number == value => {}
                _ => return Ok(false),
            }
        }
    }
    Ok(pairs.next().is_none())
}

/// Gives a name a value, beside a map that shares all nodes.
fn change_beside(
    rt: &impl Abort,
    alloc: Global,
    map: &mut FrameMap<u64>,
    values: &mut Values,
    number: u64,
) -> Result<(), AllocError> {
    let at = number % 16 * 7 % 16;
    let shared = map.share()?;
    let then = *values;
    map.insert(name(at), number)?;
    values[at as usize] = Some(number);
    assert!(rt; agree(alloc, map, values)?, "at {number}");
    assert!(rt; agree(alloc, &shared, &then)?, "beside {number}");
    Ok(())
}

#[test]
fn a_map_has_its_values_beside_one_that_shares_them(rt: HostRuntime) -> Result<(), AllocError> {
    let mut map = FrameMap::new(rt.alloc());
    let mut values = [None; 16];
    for number in 0..40 {
        change_beside(&rt, rt.alloc(), &mut map, &mut values, number)?;
        map.insert(name(number % 16), number)?;
        values[number as usize % 16] = Some(number);
        assert!(rt; agree(rt.alloc(), &map, &values)?, "after {number}");
    }
    Ok(())
}

#[test]
fn other_threads_read_and_drop(rt: HostRuntime) -> Result<(), AllocError> {
    let mut map = FrameMap::new(rt.alloc());
    map.insert(name(1), 1)?;
    map.insert(name(9), 9)?;
    let other = map.share()?;
    let found = join(
        &rt,
        || map.get(name(1)).copied(),
        move || other.get(name(9)).copied(),
    );
    assert!(rt; found == (Some(1), Some(9)));
    Ok(())
}
