//! Grants the waits at a place, without any change of the session's own tickets.
ghost use Rattle.std.specs.Prelude.{[], true, ◌≡◌};
ghost use Rattle.mdl_steps.specs.SeatStates.{AtItsTable};
ghost use Rattle.mdl_visits.specs.Grantings.{HasRescheduled, VisitsAndReschedules};
ghost use Rattle.mdl_visits.specs.Visits.{Does, MayVisit, VisitsOnce};
ghost use Rattle.mdl_key.specs.KeyLookups.{is_known};
ghost use Rattle.mdl_shared.specs.Debts.{Pays};
ghost use Rattle.mdl_shared.specs.SessionViews.{KeepsLists, RemembersWait, data_of};

use crate::Session;
use crate::member::Member;
use mdl_calls::Place;
use mdl_visits::reschedule;
use std::sync::Wait;

impl<R: Wait> Session<R> {
    /// Grants the waits at a place that can be granted, in order of arrival, and does nothing else. The session must have resolved a key to
    /// the place. It doesn't owe the place a reschedule any more. It takes no memory.
    pub fn reschedule(&mut self, place: Place)
        requires known { is_known place (data_of self.old).known ≡ true }
        ensures same { KeepsLists self.old self.new × RemembersWait self.old self.new }
        ensures paid { Pays place self.old.me self.new.me }
        ensures did { Does [] self.old.me self.new.me }
        ensures once { VisitsOnce place self.old.me self.new.me }
        ensures way { HasRescheduled self.old.table place self.old.me self.new.me }
    {
        self.member.pay(&self.rt, place as usize);
    }
}

impl Member {
    /// Grants the waits at a place that can be granted. The session doesn't owe the place a reschedule any more. It takes no memory.
    pub(crate) fn pay<R: Wait>(&mut self, rt: &R, place: usize)
        requires at { MayVisit place self.old.seat }
        ensures rescheduled { AtItsTable self.old.seat self.new.seat (VisitsAndReschedules self.old.seat.table place []) }
        ensures once { VisitsOnce place self.old.seat.me self.new.seat.me }
        ensures same { (self.new.sessions ≡ self.old.sessions) × (self.new.tickets.room ≡ self.old.tickets.room) × (self.new.known.pins ≡ self.old.known.pins) }
    {
        reschedule(rt, &mut self.seat, place);
        self.tickets.pay(place);
    }
}
