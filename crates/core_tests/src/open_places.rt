//! `wake_lists`: that a place is opened once, and the order in which places come, which for late ones that come again no
//! clause says.
use akl_terms::{Name, Place};
use std::alloc::{AllocError, Global};
use std::fmt::Write;
use wake_lists::{Open, Urgency};

const ROOT: Name = Name {
    worker: 0,
    number: 0,
};

fn goal(number: u64) -> Place {
    Place::Goal(Name { worker: 1, number })
}

// Opens goals of the numbers 0 to 3, and the third once more as an urgent one: its token, both times.
fn open_four(open: &mut Open) -> Result<(u64, u64), AllocError> {
    open.open(goal(0), &[ROOT], Urgency::Ordinary)?;
    open.open(goal(1), &[ROOT], Urgency::Ordinary)?;
    let once = open.open(goal(2), &[ROOT], Urgency::Ordinary)?;
    open.open(goal(3), &[ROOT], Urgency::Ordinary)?;
    let again = open.open(goal(2), &[ROOT], Urgency::Urgent)?;
    Ok((once, again))
}

// Puts the first two off, and the last behind all others so often that its line must be written anew.
fn put_some_last(open: &mut Open) -> Result<(), AllocError> {
    open.put_last(0, Urgency::Late)?;
    open.put_last(1, Urgency::Late)?;
    for _ in 0..100 {
        open.put_last(3, Urgency::Ordinary)?;
    }
    Ok(())
}

// Writes the tokens in the order in which they come.
fn write_order(open: &mut Open, order: &mut String) -> Result<(), AllocError> {
    for _ in 0..4 {
        if let Some(token) = open.first() {
            write!(order, " {token}")?;
            open.close(token);
        }
    }
    Ok(())
}

// The order in which the four places come, where late ones come again or not.
fn order(alloc: Global, open: &mut Open, resumes: bool) -> Result<String, AllocError> {
    let mut order = String::new(alloc);
    put_some_last(open)?;
    if resumes {
        open.resume_late();
    }
    write_order(open, &mut order)?;
    Ok(order)
}

#[test]
fn a_place_is_opened_once(rt: HostRuntime) -> Result<(), AllocError> {
    let mut open = Open::new(rt.alloc());
    let tokens = open_four(&mut open)?;
    assert!(rt; tokens == (2, 2) && open.count() == 4 && open.busy(ROOT));
    let late = order(rt.alloc(), &mut open, false)?;
    assert_eq!(rt; late.as_str(), " 2 3 0 1");
    Ok(())
}

#[test]
fn late_places_come_again_from_the_last_on(rt: HostRuntime) -> Result<(), AllocError> {
    let mut open = Open::new(rt.alloc());
    open_four(&mut open)?;
    let resumed = order(rt.alloc(), &mut open, true)?;
    assert_eq!(rt; resumed.as_str(), " 2 3 1 0");
    Ok(())
}
