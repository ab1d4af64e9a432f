//! A pool: that calls succeed with ample memory, that a take steals, and that threads come to an end.
ghost use Rattle.std.specs.Prelude.{◌≡◌, ◌<◌, length};
ghost use Rattle.task_pool.specs.Places.{IsPool};

use std::alloc::AllocError;
use std::sync::Wait;
use std::sync::atomic::{AtomicU64, Ordering};
use std::thread;
use std::thread::Threads;
use task_pool::{Hand, Pool, Refused, finish, push, room, take};

// The hand of this number pushes a token, or takes one. The hands stay those of one pool.
fn push_on(hands: &mut Vec<Hand>, number: usize, token: u64) -> Result<(), Refused>
    requires { number < length hands.old.items }
    ensures pool { IsPool hands.old.items → IsPool hands.new.items }
    ensures count { length hands.new.items ≡ length hands.old.items }
{
    let hand = &mut hands[number];
    push(hand, token)
}

fn take_by<R: Wait>(rt: &R, hands: &mut Vec<Hand>, number: usize) -> Option<u64>
    requires { number < length hands.old.items }
    ensures pool { IsPool hands.old.items → IsPool hands.new.items }
    ensures count { length hands.new.items ≡ length hands.old.items }
{
    let hand = &mut hands[number];
    take(rt, hand)
}

// The first hand pushes three tokens, and the second one.
fn push_four(hands: &mut Vec<Hand>) -> Result<(), Refused>
    requires pool { IsPool hands.old.items }
    requires two { 1 < length hands.old.items }
    ensures pool { IsPool hands.new.items }
    ensures count { length hands.new.items ≡ length hands.old.items }
{
    push_on(hands, 0, 7)?;
    push_on(hands, 0, 8)?;
    push_on(hands, 0, 9)?;
    push_on(hands, 1, 5)
}

// What the second hand takes twice, and then the first.
fn take_three<R: Wait>(rt: &R, hands: &mut Vec<Hand>) -> (Option<u64>, Option<u64>, Option<u64>)
    requires pool { IsPool hands.old.items }
    requires two { 1 < length hands.old.items }
    ensures { IsPool hands.new.items }
{
    let own = take_by(rt, hands, 1);
    let stolen = take_by(rt, hands, 1);
    (own, stolen, take_by(rt, hands, 0))
}

#[test]
fn a_hand_takes_its_own_token_first_and_then_steals(rt: HostRuntime) -> Result<(), AllocError> {
    let mut hands = Pool::new(rt.alloc(), 2)?;
    assert!(rt; room(&hands[0]) == 64 && push_four(&mut hands).is_ok());
    assert!(rt; take_three(&rt, &mut hands) == (Some(5), Some(7), Some(8)));
    let left = finish(rt.alloc(), hands)?;
    assert!(rt; left.as_slice() == [9].as_slice());
    Ok(())
}

// Pushes the thousand tokens from the first on.
fn push_thousand(hand: &mut Hand, first: u64)
    ensures { hand.new.place ≡ hand.old.place }
{
    for k in 0..1000 {
        let _ = push(hand, first.wrapping_add(k));
    }
}

// Takes 400 tokens, and adds them to the sum.
fn take_some<R: Wait>(rt: &R, hand: &mut Hand, sum: &AtomicU64)
    ensures { hand.new.place ≡ hand.old.place }
{
    let mut taken = 0;
    for _ in rt.forever() {
        if taken >= 400 {
            return;
        }
        match take(rt, hand) {
            Some(token) => {
                sum.fetch_add(token, Ordering::SeqCst);
                taken += 1;
            }
            None => thread::yield_now(),
        }
    }
}

// Each hand in a thread of its own. Those after the second push nothing, and so steal all that they take.
fn set_to_work<R: Threads + Wait + Sync>(rt: &R, hands: &mut [Hand], sum: &AtomicU64)
    ensures { IsPool hands.old → IsPool hands.new }
{
    let work = |number: usize, hand: &mut Hand|
        ensures { hand.exit.now.place ≡ hand.entry.now.place }
    {
        if number < 2 {
            push_thousand(hand, number as u64 * 1000);
        }
        take_some(rt, hand, sum);
    };
    thread::for_each_mut(rt, hands, 4, &work);
}

#[test]
fn threads_push_take_and_steal_and_the_rest_is_left(rt: HostRuntime) -> Result<(), AllocError> {
    let mut hands = Pool::new(rt.alloc(), 4)?;
    let sum = AtomicU64::new(0);
    set_to_work(&rt, hands.as_mut_slice(), &sum);
    let left = finish(rt.alloc(), hands)?;
    assert!(rt; left.len() == 400);
    for token in left {
        sum.fetch_add(token, Ordering::SeqCst);
    }
    assert!(rt; sum.load(Ordering::SeqCst) == 1999 * 2000 / 2);
    Ok(())
}
