ghost use Rattle.std.specs.Prelude.{◌≡◌, ◌+◌, ◌<◌, ◌≤◌, IfOk, IfSome, if◌then◌else◌};
ghost use Rattle.cut_slots.specs.Slot.{losses_of};
ghost use Rattle.cut_slots.specs.Turn.{CountsAccepted};
ghost use Rattle.cut_outcome.specs.Outcome.{rings_of};

use crate::hall::LockedSlot;
use crate::{CallLedger, Gate, Hall, Pass, WorkEnv};
use cut_disks::Disk;
use cut_outcome::{Piece, PieceResult};
use cut_plan::Plan;
use cut_rings::Rings;
use cut_slots::{CallFault, Drawn, Next, draw_in, next_after};
use cut_trial::{run_piece, twice};
use std::alloc::Global;
use std::sync::{Mutex, OnceLock, Wait};

/// A cell of the study that has a slot of a hall.
#[derive(Clone, Copy, Debug)]
pub struct StudyCell {
    /// The number of the slot.
    pub study: u32,
    /// The number of the cell.
    pub cell: u32,
}

/// What workers need for the pieces of a study: a copy of its plan, with the rings.
#[derive(Drop)]
pub(crate) struct StudyInput {
    plan: Plan,
    rings: Rings,
    ghost of_plan: { rings ≡ rings_of plan },
}

/// The input of a study, which the first worker that needs it makes and all workers share.
#[derive(Drop)]
pub(crate) struct SharedInput {
    input: OnceLock<StudyInput>,
    making: Mutex<bool>,
}

impl StudyInput {
    /// The input of a plan's study, if there is memory for it.
    fn new(alloc: Global, plan: Plan) -> Option<StudyInput>
        ensures { IfSome result (λ input. input.plan ≡ plan) }
    {
        let rings = Rings::hashed(alloc, &plan).ok()?;
        Some(StudyInput { plan, rings })
    }

    /// Runs a piece, if there is memory for it.
    fn run(&self, alloc: Global, piece: Piece) -> Option<PieceResult>
        ensures { IfSome result (λ r. r ≡ record { plan = self.now.plan; piece = piece }) }
    {
        run_piece(alloc, &self.plan, &self.rings, piece).ok()
    }
}

impl SharedInput {
    /// No input yet.
    pub(crate) fn none() -> SharedInput {
        SharedInput {
            input: OnceLock::new(),
            making: Mutex::new(false),
        }
    }
}

impl<D: Disk + Drop, M: CallLedger, K: CallLedger> Hall<D, M, K> {
    /// Works on the studies in the order of their slots, on each as long as pieces of it can be drawn, and then waits
    /// for the next. Each piece is drawn, runs once the gate lets it pass, and is handed in; an accepted one is counted
    /// on the board. A piece for which memory runs out twice, or for the result of which it does, is lost, and a study
    /// whose disk has failed is left.
    ///
    /// It returns after `stop`, and if nothing more can be drawn by this pass, or counted by the hall.
    pub fn work<R: Wait, G: Gate>(&self, rt: &R, alloc: Global, pass: &mut Pass<M>, gate: &G)
        requires { pass.old.hall ≡ self.now.id }
        ensures own { pass.new.hall ≡ pass.old.hall }
        ensures made { pass.old.made ≤ pass.new.made }
    {
        let env = WorkEnv { rt, alloc, gate };
        for study in 0..self.places.len() as u32 {
            if self.wait_for_study(rt, study) || !self.work_off(&env, pass, study) {
                return;
            }
        }
        self.wait_for_stop(rt);
    }

    /// Works on the pieces of one study until none are left to be drawn, as `work` does on each, for a caller that
    /// gives its thread for as long. In a slot without a study it does nothing. Returns whether it may go on with
    /// another study: not after `stop`, nor if nothing more can be drawn by this pass, or counted by the hall.
    pub fn work_off<R: Wait, G: Gate>(
        &self,
        env: &WorkEnv<'_, R, G>,
        pass: &mut Pass<M>,
        study: u32,
    ) -> bool
        requires own { pass.old.hall ≡ self.now.id }
        requires slot { study < self.now.slots }
        ensures own { pass.new.hall ≡ pass.old.hall }
        ensures made { pass.old.made ≤ pass.new.made }
    {
        for _ in env.rt.forever() {
            match self.turn(env, pass, study) {
                Next::Piece => {}
                Next::Study => return true,
                Next::Nothing => return false,
            }
        }
        unreachable!()
    }

    /// Works on the pieces of a study until a cell of it is done, or none are left to be drawn, so that who then
    /// asks for the cell's line waits for no piece that nobody has begun.
    pub fn work_on_cell<R: Wait, G: Gate>(
        &self,
        env: &WorkEnv<'_, R, G>,
        pass: &mut Pass<M>,
        wanted: StudyCell,
    )
        requires own { pass.old.hall ≡ self.now.id }
        requires slot { wanted.study < self.now.slots }
        ensures own { pass.new.hall ≡ pass.old.hall }
        ensures made { pass.old.made ≤ pass.new.made }
    {
        let StudyCell { study, cell } = wanted;
        let place = &self.places[study as usize];
        for _ in env.rt.forever() {
            if place.slot.lock(env.rt).is_done(cell) {
                return;
            }
            match self.turn(env, pass, study) {
                Next::Piece => {}
                Next::Study | Next::Nothing => return,
            }
        }
    }

    /// Draws a piece of a study, runs it and hands it in.
    fn turn<R: Wait, G: Gate>(
        &self,
        env: &WorkEnv<'_, R, G>,
        pass: &mut Pass<M>,
        study: u32,
    ) -> Next
        requires own { pass.old.hall ≡ self.now.id }
        requires slot { study < self.now.slots }
        ensures own { pass.new.hall ≡ pass.old.hall }
        ensures made { pass.old.made ≤ pass.new.made }
    {
        let WorkEnv { rt, alloc, gate } = *env;
        let drawn = match self.draw_piece(rt, pass, study) {
            Ok(drawn) => drawn,
            Err(next) => return next,
        };
        gate.pass(rt, drawn.piece);
        match self.compute(rt, alloc, drawn) {
            Some(result) => match self.hand_in(rt, pass, drawn, &result) {
                Ok(()) => {
                    gate.accepted(rt, drawn.piece);
                    Next::Piece
                }
                Err(next) => next,
            },
            None => next_after(self.lose(rt, pass, study, drawn.number)),
        }
    }

    /// Draws the next piece of a study, or returns how the worker goes on without one.
    fn draw_piece<R: Wait>(&self, rt: &R, pass: &mut Pass<M>, study: u32) -> Result<Drawn, Next>
        requires own { pass.old.hall ≡ self.now.id }
        requires slot { study < self.now.slots }
        ensures study { IfOk result (λ drawn. drawn.study ≡ study) }
        ensures own { pass.new.hall ≡ pass.old.hall }
        ensures made { pass.new.made ≡ pass.old.made }
    {
        let slot = self.places[study as usize].slot.lock(rt);
        draw_in(&slot, &self.board, &mut pass.seat, study)
    }

    /// Runs a piece, and a second time if memory ran out.
    fn compute<R: Wait>(&self, rt: &R, alloc: Global, drawn: Drawn) -> Option<PieceResult>
        requires { drawn.study < self.now.slots }
        ensures { IfSome result (λ r. r.piece ≡ drawn.piece) }
    {
        let mut attempt = || -> Option<PieceResult>
            requires { drawn.study < self.now.slots }
            ensures { IfSome result (λ r. r.piece ≡ drawn.piece) }
        {
            let input = self.input(rt, alloc, drawn.study)?;
            input.run(alloc, drawn.piece)
        };
        twice(&mut attempt)
    }

    /// The input of a study, if it has been made or there is memory to make it. Others who need it wait meanwhile, and
    /// if memory runs out the next of them tries again.
    fn input<R: Wait>(&self, rt: &R, alloc: Global, study: u32) -> Option<&StudyInput>
        requires { study < self.now.slots }
    {
        let LockedSlot {
            slot,
            input: shared,
            ..
        } = &self.places[study as usize];
        if let Some(input) = shared.input.get() {
            return Some(input);
        }
        let mut is_made = shared.making.lock(rt);
        if !*is_made {
            let plan = slot.lock(rt).plan(alloc).ok()??;
            let _ = shared.input.set(rt, StudyInput::new(alloc, plan)?);
            *is_made = true;
        }
        shared.input.get()
    }

    /// Hands a result in, or returns how the worker goes on if it is not accepted. If it is, its trials are counted
    /// before the lock is given back. A study whose disk has failed takes no more, so the worker leaves it.
    fn hand_in<R: Wait>(
        &self,
        rt: &R,
        pass: &mut Pass<M>,
        drawn: Drawn,
        offered: &PieceResult,
    ) -> Result<(), Next>
        requires own { pass.old.hall ≡ self.now.id }
        requires slot { drawn.study < self.now.slots }
        ensures own { pass.new.hall ≡ pass.old.hall }
        ensures made { pass.old.made ≤ pass.new.made }
        ensures counted { CountsAccepted result self.now.slots drawn.study drawn.piece.count
            pass.old.view pass.new.view }
    {
        let place = &self.places[drawn.study as usize];
        let mut slot = place.slot.lock(rt);
        let handed = slot.take_and_count(&self.counter(rt), &self.board, pass, drawn, offered);
        place.changed.notify_all();
        handed
    }

    /// Gives up a piece of a study, by its number from 0 in the study's division, as a worker does where memory for it
    /// is refused: whoever asks for the line of its cell gets that fault, if the cell is not done. Returns whether it
    /// is noted, which is a call of the pass: not if there is no study or no such piece, or it was given up before.
    pub fn give_up<R: Wait>(&self, rt: &R, pass: &mut Pass<M>, study: u32, piece: u64) -> bool
        requires own { pass.old.hall ≡ self.now.id }
        requires slot { study < self.now.slots }
        ensures own { pass.new.hall ≡ pass.old.hall }
        ensures made { pass.new.made ≡ (if result then pass.old.made + 1 else pass.old.made) }
    {
        self.lose(rt, pass, study, piece).is_ok()
    }

    /// Records that a piece is lost.
    fn lose<R: Wait>(
        &self,
        rt: &R,
        pass: &mut Pass<M>,
        study: u32,
        piece: u64,
    ) -> Result<(), CallFault>
        requires own { pass.old.hall ≡ self.now.id }
        requires slot { study < self.now.slots }
        ensures own { pass.new.hall ≡ pass.old.hall }
        ensures made { pass.new.made ≡ pass.old.made + losses_of result }
    {
        let place = &self.places[study as usize];
        let noted = place
            .slot
            .lock(rt)
            .lose(&self.counter(rt), &mut pass.made, piece);
        place.changed.notify_all();
        noted
    }

    /// Waits until a slot has a study, or the work in it is ended: whether it is.
    fn wait_for_study<R: Wait>(&self, rt: &R, study: u32) -> bool
        requires { study < self.now.slots }
    {
        let place = &self.places[study as usize];
        let slot = place
            .changed
            .wait_while(rt, place.slot.lock(rt), |slot| slot.is_idle());
        slot.is_stopped()
    }

    /// Waits until the work is ended.
    fn wait_for_stop<R: Wait>(&self, rt: &R) {
        if let Some(place) = self.places.first() {
            place
                .changed
                .wait_while(rt, place.slot.lock(rt), |slot| !slot.is_stopped());
        }
    }
}
