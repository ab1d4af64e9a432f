//! One worker.

ghost use Rattle.std.specs.Prelude.{◌≡◌, ◌<◌, IfOk, IfSome};
ghost use Rattle.std.proofs.Props.{props};
ghost use Rattle.turn_lock.specs.Passes.{view, IsPassOf, HasNoTurn};
ghost use Rattle.place_steps.specs.Next.{IsNext};
ghost use Rattle.place_steps.specs.Seen.{view_in, IsSeen};
ghost use Rattle.par_workers.specs.Shared.{AreReceiptsOf};
ghost use Rattle.par_workers.specs.Tokens.{StayAtHand};
ghost use Rattle.par_workers.specs.Turns.{run_seen, IsNumber, IsChosenIn, IsFoundIn, HasSeen, view_of};

use crate::choosing::Chosen;
use crate::concluding::{Planned, label_count};
use crate::looking::{Look, Sight};
use crate::shared::SharedRun;
use crate::signals::Signals;
use crate::vain_turns::VainTurns;
use crate::vain_waits::VainWaits;
use akl_model::Receipt;
use akl_outside::Gate;
use akl_terms::{Program, Steps, Var};
use box_tree::View;
use place_steps::{Early, Next, Seen, early_next, next_of};
use rule_plan::plan;
use std::alloc::{AllocError, Global};
use std::collections::VecDeque;
use std::marker::Brand;
use std::sync::Wait;
use std::sync::ledger::{Blank, Ledger};
use task_pool::{Hand, is_bare, push, take};
use turn_lock::{Pass, TurnLock};

// A worker with so many tokens has enough to give one away. With fewer, labels of two workers would come in turns at one box,
// and each would have to find out anew what is known of the stores there.
const ENOUGH: usize = 8;

/// A worker between its turns: its receipts are exactly those of its labels in what its pass has seen.
#[derive(Drop)]
pub struct Worker {
    pub number: u32,
    pub pass: Pass<SharedRun>,
    pub receipts: Vec<Receipt>,
    /// Its hand in the pool of tokens, with a deque from which others may take.
    pub hand: Hand,
    /// The tokens that it has outside of its deque.
    pub tokens: VecDeque<u64>,
    /// How many labels its next plan may have.
    pub room: u64,
    ghost numbered: { IsNumber number (view pass) },
    ghost idle: { HasNoTurn pass },
    ghost exact: { AreReceiptsOf number (view pass).seen receipts.items } by { Prim.hlevel props },
}

impl Worker {
    /// Takes turns, and plans between them, until the run has ended: no place is open, or all workers are to stop.
    ///
    /// A worker draws a token where it has none. One that finds no place waits outside of the lock, and has no token then. One
    /// that has waited for the lock longer than it planned, again and again, leaves its tokens to others for a time.
    pub(crate) fn work<R: Wait, G: Gate>(
        &mut self,
        rt: &R,
        alloc: Global,
        program: &Program,
        lock: &TurnLock<SharedRun>,
        gate: &G,
        signals: &Signals,
    )
        requires lock { IsPassOf lock.now self.old.pass }
        requires program { program.now ≡ (view self.old.pass).fixed.table.program }
        ensures lock { IsPassOf lock.now self.new.pass }
        ensures number { self.new.number ≡ self.old.number }
    {
        self.work_counted::<R, G, Brand>(rt, alloc, program, lock, gate, signals, Blank::new(1));
    }

    // The same by a counter of the steps that its commits take.
    fn work_counted<R: Wait, G: Gate, L: Ledger>(
        &mut self,
        rt: &R,
        alloc: Global,
        program: &Program,
        lock: &TurnLock<SharedRun>,
        gate: &G,
        signals: &Signals,
        blank: Blank,
    )
        requires lock { IsPassOf lock.now self.old.pass }
        requires program { program.now ≡ (view self.old.pass).fixed.table.program }
        requires name { blank.name ≡ L.name }
        requires parts { blank.parts ≡ L.parts }
        requires some { 0 < blank.parts }
        ensures lock { IsPassOf lock.now self.new.pass }
        ensures number { self.new.number ≡ self.old.number }
    {
        let mut steps = Steps::<L>::new(blank);
        signals.begin_work();
        let mut vain = VainTurns::new();
        let mut waits = VainWaits::new();
        let mut planned = None;
        for _ in rt.forever() {
            if signals.have_ended() {
                return;
            }
            if vain.is_waiting() {
                vain.wait(rt, signals);
                continue;
            }
            let drawn = self.draw_unless(rt, planned.is_some());
            match self.turn(
                rt, alloc, lock, signals, &mut waits, planned, drawn, &mut steps,
            ) {
                Chosen::End => break,
                Chosen::Wait => {
                    self.rest(rt, signals, &mut vain, &mut waits);
                    planned = None;
                }
                Chosen::At(look) => {
                    vain.end(signals);
                    gate.before_plan(self.number);
                    let Ok(found) = plan_at(alloc, program, look, self.room) else {
                        break;
                    };
                    planned = Some(found);
                }
            }
        }
        signals.end();
    }

    // One turn: what was planned is committed or settled, and the next place is chosen, that of the token that was drawn
    // before all others. After a call at once that is refused, the next plan has one label.
    fn turn<R: Wait, L: Ledger>(
        &mut self,
        rt: &R,
        alloc: Global,
        lock: &TurnLock<SharedRun>,
        signals: &Signals,
        waits: &mut VainWaits,
        planned: Option<Planned>,
        drawn: Option<u64>,
        steps: &mut Steps<L>,
    ) -> Chosen
        requires lock { IsPassOf lock.now self.old.pass }
        requires planned { IfSome planned (λ p. IfSome p.next (IsFoundIn (run_seen (view self.old.pass)) self.old.number)) }
        ensures lock { IsPassOf lock.now self.new.pass }
        ensures number { self.new.number ≡ self.old.number }
        ensures chosen { IsChosenIn (run_seen (view self.new.pass)) self.new.number result }
    {
        if self.receipts.reserve(label_count(&planned)).is_err() {
            return Chosen::End;
        }
        waits.ask(signals);
        let (turn, mut run) = lock.lock(rt, &mut self.pass);
        waits.have(signals);
        let worker = self.number;
        let refused = run.conclude(
            alloc,
            worker,
            planned,
            &mut self.receipts,
            &mut self.tokens,
            steps,
        );
        let chosen = run.choose(alloc, worker, drawn, waits.are_many(), &mut self.tokens);
        self.room = if refused { 1 } else { run.left() };
        waits.leave(signals);
        let copied = run.has_copy();
        lock.unlock(turn, run, &mut self.pass);
        self.share(signals, copied);
        chosen
    }

    // Takes a token, its deque's first or else another's, where it has none and has planned nothing.
    fn draw_unless<R: Wait>(&mut self, rt: &R, planned: bool) -> Option<u64>
        ensures pass { self.new.pass ≡ self.old.pass }
        ensures number { self.new.number ≡ self.old.number }
    {
        if planned || !self.tokens.is_empty() {
            return None;
        }
        take(rt, &mut self.hand)
    }

    // It waits where it found nothing to do. Where it waited for the lock too often, it gives way, and leaves its tokens.
    fn rest<R: Wait>(
        &mut self,
        rt: &R,
        signals: &Signals,
        vain: &mut VainTurns,
        waits: &mut VainWaits,
    )
        ensures pass { self.new.pass ≡ self.old.pass }
        ensures number { self.new.number ≡ self.old.number }
    {
        if waits.are_many() {
            self.lay_down();
            signals.ring();
            waits.give_way(rt, signals);
        } else {
            vain.add(signals);
        }
    }

    // Puts its tokens into its deque, up to the first that is refused.
    fn lay_down(&mut self)
        ensures pass { self.new.pass ≡ self.old.pass }
        ensures number { self.new.number ≡ self.old.number }
        ensures stay { StayAtHand self.old.tokens.items self.old.hand.pushed self.new.tokens.items self.new.hand.pushed }
    {
        for _ in 0..self.tokens.len() {
            let Some(token) = self.tokens.front() else {
                return;
            };
            if push(&mut self.hand, *token).is_err() {
                return;
            }
            let _ = self.tokens.pop_front();
        }
    }

    // Where another worker has nothing to do, it is told that a copy lies with the run, or is offered a token if none does.
    fn share(&mut self, signals: &Signals, copied: bool)
        ensures pass { self.new.pass ≡ self.old.pass }
        ensures number { self.new.number ≡ self.old.number }
    {
        if !copied {
            self.offer(signals);
        } else if signals.is_anyone_idle() {
            signals.ring();
        }
    }

    // Puts the last of its tokens into its deque, where it has enough, another worker has nothing to do and the deque has none.
    fn offer(&mut self, signals: &Signals)
        ensures pass { self.new.pass ≡ self.old.pass }
        ensures number { self.new.number ≡ self.old.number }
        ensures stay { StayAtHand self.old.tokens.items self.old.hand.pushed self.new.tokens.items self.new.hand.pushed }
    {
        if self.tokens.len() < ENOUGH || !signals.is_anyone_idle() || !is_bare(&mut self.hand) {
            return;
        }
        let Some(token) = self.tokens.back() else {
            return;
        };
        if push(&mut self.hand, *token).is_ok() {
            let _ = self.tokens.pop_back();
            signals.ring();
        }
    }
}

// What comes next at a place that a worker looked at, by a plan of at most so many labels, or of one; at a place that is tried
// only where a rule other than Split applies.
fn plan_at(alloc: Global, program: &Program, look: Look, room: u64) -> Result<Planned, AllocError>
    requires seen { HasSeen look.sight }
    requires program { program.now ≡ (view_of look.sight).table.program }
    ensures { IfOk result (λ planned. IfSome planned.next (IsNext (view_of look.sight))) }
{
    let (next, on) = match &look.sight {
        Sight::Whole(seen) => (Some(next_of(alloc, program, seen, room)?), None),
        Sight::Early(seen) => plan_early(alloc, program, seen, room)?,
        Sight::Tried(view) => (plan_tried(alloc, program, view)?, None),
    };
    Ok(Planned {
        token: look.token,
        next,
        on,
    })
}

// What comes next at a goal, or the variable for which its call waits until it is known which clause is left.
fn plan_early(
    alloc: Global,
    program: &Program,
    seen: &Seen,
    room: u64,
) -> Result<(Option<Next>, Option<Var>), AllocError>
    requires program { program.now ≡ (view_in seen.now).table.program }
    requires seen { IsSeen seen.now }
    ensures { IfOk result (λ found. IfSome found.0 (IsNext (view_in seen.now))) }
{
    match early_next(alloc, program, seen, room)? {
        Early::Next(next) => Ok((Some(next), None)),
        Early::Waits(variable) => Ok((None, Some(variable))),
    }
}

// A right plan of a rule other than Split, if one applies.
fn plan_tried(alloc: Global, program: &Program, view: &View) -> Result<Option<Next>, AllocError>
    requires { program.now ≡ view.now.table.program }
    ensures { IfOk result (λ next. IfSome next (IsNext view.now)) }
{
    match plan(alloc, program, view)? {
        Some(found) => Ok(Some(Next::Plan(found))),
        None => Ok(None),
    }
}
