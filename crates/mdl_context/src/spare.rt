//! Where a context may know a place that it doesn't need.
ghost use Rattle.std.specs.Prelude.{◌≡◌, ℕ, true, false, ◌==◌};
ghost use Rattle.mdl_context.specs.Spares.{marks};

use mdl_space::Place;

/// Where there may be known places with neither a ticket nor the wait. A place may be marked although it has one.
#[derive(Clone, Copy)]
pub(crate) enum Spare {
    /// There is no such place.
    Nowhere,
    /// No place but this one.
    At(Place),
    /// All places.
    Anywhere,
}

impl Spare {
    /// Marks a place. If another one is marked, all are.
    pub(crate) fn mark(&mut self, place: Place)
        ensures here { marks self.new place ≡ true }
        ensures others { (q : ℕ) → marks self.old q ≡ true → marks self.new q ≡ true }
    {
        *self = match *self {
            Spare::Nowhere => Spare::At(place),
            Spare::At(other) if other == place => Spare::At(place),
            _ => Spare::Anywhere,
        };
    }

    /// Takes the mark of a place away, if no other place is marked.
    pub(crate) fn unmark(&mut self, place: Place)
        ensures { (q : ℕ) → (place == q) ≡ false → marks self.old q ≡ true → marks self.new q ≡ true }
    {
        if let Spare::At(other) = *self {
            if other == place {
                *self = Spare::Nowhere;
            }
        }
    }
}
