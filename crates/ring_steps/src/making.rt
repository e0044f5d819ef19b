//! A run that is being made, turn by turn.
ghost use Rattle.std.specs.Prelude.{◌≡◌, ◌<◌, ◌≤◌, false, length, IfOk, IfErr, OnOk, IfSome, IfNone, IsTrue};
ghost use Rattle.ring_steps.specs.Faults.{HasCall, IsRefusal};
ghost use Rattle.ring_steps.specs.Making.{FinishesOthers, Goes, GoesAlone, IsSound, SoFar, TakesTurn, calls_left, nothing_made};
ghost use Rattle.ring_steps.specs.Scripts.{IsGoodConfig, IsGoodScript, calls_of};

use crate::calls::Actor;
use crate::config::Config;
use crate::fault::StepFault;
use crate::made::Made;
use crate::progress::Progress;
use crate::script::Script;
use std::alloc::{AllocError, Global};
use std::marker::Model;

/// A ring in use, with how many calls of each actor were answered, and the steps that were made so far.
#[derive(Drop)]
pub(crate) struct Making {
    progress: Progress,
    pub(crate) made: Vec<Made>,
}

impl Model for Making {
    ghost Value = { SoFar };

    ghost view = { λ m. record { at = m.progress; steps = m.made.items } };
}

impl Making {
    /// Makes the steps of a schedule, over a ring that nobody used yet.
    pub(crate) fn along(
        alloc: Global,
        config: &Config,
        script: &Script,
        schedule: &[Actor],
    ) -> Result<Making, StepFault>
        requires config { IsGoodConfig config.now (calls_of script.now) }
        requires script { IsGoodScript (calls_of script.now) }
        ensures goes { IfOk result (Goes (calls_of script.now) schedule.now (nothing_made config.now)) }
        ensures refused { IfErr result (IsRefusal config.now (calls_of script.now) schedule.now) }
    {
        let mut making = Making {
            progress: Progress::new(alloc, config.keep, config.seats as u16)?,
            made: Vec::with_capacity(alloc, schedule.len())?,
        };
        for (i, actor) in schedule.iter().enumerate() {
            match making.step(script, *actor)? {
                Some(_) => {}
                None => return Err(StepFault::BadSchedule(i)),
            }
        }
        Ok(making)
    }

    /// Makes this actor's next step, and tells whether it ended a call. `None` where the actor doesn't exist or has no call left.
    fn step(&mut self, script: &Script, actor: Actor) -> Result<Option<bool>, AllocError>
        requires sound { IsSound (calls_of script.now) self.old }
        requires good { IsGoodScript (calls_of script.now) }
        ensures turn { IfOk result (λ r. IfSome r (λ ended. TakesTurn (calls_of script.now) actor ended self.old self.new)) }
        ensures none { IfOk result (λ r. IfNone r (¬ HasCall (calls_of script.now) self.old.at actor)) }
        ensures stays { IfOk result (λ r. IfNone r (self.new ≡ self.old)) }
    {
        // These steps lie in memory, so each count of the ring has room for one more.
        let _so_far = self.made.as_slice();
        let Some(stepped) = self.progress.step(script, actor)? else {
            return Ok(None);
        };
        let ended = stepped.answer.is_some();
        self.made.push(Made {
            actor,
            saw: stepped.saw,
            answer: stepped.answer,
        })?;
        Ok(Some(ended))
    }

    /// Makes the steps of this actor's next call. `false` where it doesn't exist or has no call left.
    fn finish_call(&mut self, script: &Script, actor: Actor) -> Result<bool, AllocError>
        requires sound { IsSound (calls_of script.now) self.old }
        requires good { IsGoodScript (calls_of script.now) }
        ensures goes { OnOk result (GoesAlone (calls_of script.now) actor self.old self.new) }
        ensures ended { IfOk result (λ r. IsTrue r → calls_left (calls_of script.now) actor self.new.at < calls_left (calls_of script.now) actor self.old.at) }
        ensures none { IfOk result (λ r. r ≡ false → ¬ HasCall (calls_of script.now) self.new.at actor) }
    {
        'steps: loop {
            match self.step(script, actor)? {
                Some(true) => return Ok(true),
                Some(false) => {}
                None => return Ok(false),
            }
        }
    }

    /// Makes steps of this actor until it has no call left.
    fn finish(&mut self, script: &Script, actor: Actor) -> Result<(), AllocError>
        requires sound { IsSound (calls_of script.now) self.old }
        requires good { IsGoodScript (calls_of script.now) }
        ensures goes { OnOk result (GoesAlone (calls_of script.now) actor self.old self.new) }
        ensures none { OnOk result (¬ HasCall (calls_of script.now) self.new.at actor) }
    {
        'calls: loop {
            if !self.finish_call(script, actor)? {
                return Ok(());
            }
        }
    }

    /// Makes steps until nobody but the stopped actor has a call left: the publisher's, and then each seat's in their order.
    pub(crate) fn finish_others(
        &mut self,
        script: &Script,
        stopped: Actor,
    ) -> Result<(), AllocError>
        requires sound { IsSound (calls_of script.now) self.old }
        requires good { IsGoodScript (calls_of script.now) }
        requires seats { length (calls_of script.now).seats ≤ 1024 }
        ensures { OnOk result (FinishesOthers (calls_of script.now) stopped self.old self.new) }
    {
        if stopped != Actor::P {
            self.finish(script, Actor::P)?;
        }
        for seat in 0..script.seats.len() as u16 {
            if stopped != Actor::Seat(seat) {
                self.finish(script, Actor::Seat(seat))?;
            }
        }
        Ok(())
    }
}
