//! The directory's latch. The directory says which key has which place.
ghost use Rattle.std.specs.Prelude.{◌≡◌, ◌≢◌, ℕ, ◌<◌, ◌∷◌, length, MatchOption};
ghost use Rattle.mdl_steps.specs.declared.slot.Slot.TheVariants as slot;
ghost use Rattle.mdl_steps.specs.declared.view.Keys.{Keys};
ghost use Rattle.mdl_steps.specs.Plays.{IsDirectory, consulted, informed, missed_latch};
ghost use Rattle.mdl_steps.specs.Schemas.{StandThere, unknown};
ghost use Rattle.mdl_steps.specs.Seats.{HasDirectory, MayInform, learnt, rest};

use crate::layout::DIRECTORY_LATCH;
use crate::plays::{Learning, PutDirectory, TakeDirectory};
use crate::table_seat::TableSeat;
use mdl_key::KnownKey;
use std::marker::Brand;

/// The latch of the directory, which a session holds. It has to be given back: it can't be dropped.
pub struct LatchedDirectory {
    marker: (),
}

impl TableSeat {
    /// Takes the directory's latch if it is free, otherwise returns `None`. It comes before the latches of all places, so the session must
    /// hold none of these.
    pub fn take_directory(&mut self) -> Option<LatchedDirectory>
        requires first { length self.old.me.0.latches ≡ 0 }
        ensures taken { MatchOption result
            ((found : ℕ) × (found ≢ 0) × (self.new ≡ record self.old { me = missed_latch 0 found self.old.me }))
            (λ held. (k : Keys) × IsDirectory self.old.table.slots k self.old.me × HasDirectory k self.new.me × (self.new ≡ record self.old { me = consulted k self.old.me })) }
    {
        let found = self
            .table
            .shared
            .compare_exchange::<TakeDirectory>(
                &mut self.seat,
                DIRECTORY_LATCH,
                0,
                self.number as u64,
            );
        if found != 0 {
            return None;
        }
        Some(LatchedDirectory { marker: () })
    }

    /// Gives the directory's latch back. From then on the session knows the key of this place, if the place has one. Place 0 has none.
    pub fn put_directory(&mut self, latch: LatchedDirectory, place: usize)
        requires put { MayInform self.old.me }
        ensures made { self.new ≡ record self.old { me = informed (learnt self.old.me place) self.old.me } }
    {
        let LatchedDirectory { marker: () } = latch;
        self.put_directory_knowing::<Brand>(place);
    }

    fn put_directory_knowing<J: Learning>(&mut self, _place: usize)
        requires picked { learnt self.old.me _place ≡ J.learnt }
        requires put { MayInform self.old.me }
        ensures made { self.new ≡ record self.old { me = informed (learnt self.old.me _place) self.old.me } }
    {
        self.table
            .shared
            .store::<PutDirectory<J>>(&mut self.seat, DIRECTORY_LATCH, 0);
    }
    /// Gives the directory's latch back. From then on the session also knows those of the given keys that it didn't know.
    pub fn put_directory_telling(&mut self, latch: LatchedDirectory, known: &[KnownKey])
        requires put { (k : Keys) × HasDirectory k self.old.me × StandThere k known.now }
        ensures made { self.new ≡ record self.old { me = informed (unknown self.old.me.0.known known.now) self.old.me } }
    {
        let LatchedDirectory { marker: () } = latch;
        self.put_directory_after::<Brand>(known);
    }

    fn put_directory_after<J: Learning>(&mut self, _known: &[KnownKey])
        requires picked { unknown self.old.me.0.known _known.now ≡ J.learnt }
        requires put { (k : Keys) × HasDirectory k self.old.me × StandThere k _known.now }
        ensures made { self.new ≡ record self.old { me = informed (unknown self.old.me.0.known _known.now) self.old.me } }
    {
        self.table
            .shared
            .store::<PutDirectory<J>>(&mut self.seat, DIRECTORY_LATCH, 0);
    }
}
