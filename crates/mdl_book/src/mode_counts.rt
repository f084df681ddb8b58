//! How many tickets of each mode a list has.
ghost use Rattle.std.specs.Prelude.{◌≡◌, ◌+◌, ◌-◌, ◌<◌, slice_index, slice_set, replicate};
ghost use Rattle.mdl_key.specs.Words.{is_obtrusive, clashes, waits_behind, mode_rank};
ghost use Rattle.mdl_book.specs.TicketLists.{MarksModes, none_counted};

use mdl_key::{Kind, Mode, granted_row, obtrusive_row, waiting_row};

/// How many tickets there are in each mode, in the order of modes, and in which modes there are any.
#[derive(Drop)]
pub(crate) struct ModeCounts {
    pub(crate) counts: [u16; 11],
    // Bit n is the mode at index n, as in the rows of the matrices: one `&` shows whether a counted mode is in a row.
    pub(crate) present: u16,
}

impl ModeCounts {
    /// Returns the counts of no tickets.
    pub(crate) fn new() -> ModeCounts
        ensures counts { result.counts ≡ replicate 11 0 }
        ensures marked { MarksModes result.present result.counts }
    {
        ModeCounts {
            counts: [0; 11],
            present: 0,
        }
    }

    /// Counts one ticket more.
    #[inline]
    pub(crate) fn add(&mut self, mode: Mode)
        requires { slice_index self.old.counts (mode_rank mode) < 65535 }
        ensures counts { self.new.counts ≡ slice_set self.old.counts (mode_rank mode) (slice_index self.old.counts (mode_rank mode) + 1) }
        ensures marked { MarksModes self.old.present self.old.counts → MarksModes self.new.present self.new.counts }
    {
        let place = place_of(mode);
        self.counts[place] += 1;
        self.present |= 1 << place;
    }

    /// Counts one ticket less.
    #[inline]
    pub(crate) fn subtract(&mut self, mode: Mode)
        requires { 0 < slice_index self.old.counts (mode_rank mode) }
        ensures counts { self.new.counts ≡ slice_set self.old.counts (mode_rank mode) (slice_index self.old.counts (mode_rank mode) - 1) }
        ensures marked { MarksModes self.old.present self.old.counts → MarksModes self.new.present self.new.counts }
    {
        let place = place_of(mode);
        let left = self.counts[place] - 1;
        self.counts[place] = left;
        if left == 0 {
            self.present &= !(1 << place);
        }
    }

    /// Whether a request for `mode` clashes with no mode that has tickets.
    pub(crate) fn none_clashes(&self, kind: Kind, mode: Mode) -> bool
        requires { MarksModes self.now.present self.now.counts }
        ensures { result ≡ none_counted (clashes kind mode) self.now.counts }
    {
        self.present & granted_row(kind, mode) == 0
    }

    /// Whether a request for `mode` waits behind no mode that has tickets.
    pub(crate) fn none_goes_before(&self, kind: Kind, mode: Mode) -> bool
        requires { MarksModes self.now.present self.now.counts }
        ensures { result ≡ none_counted (waits_behind kind mode) self.now.counts }
    {
        self.present & waiting_row(kind, mode) == 0
    }

    /// Whether no mode that has tickets is obtrusive.
    pub(crate) fn none_obtrusive(&self, kind: Kind) -> bool
        requires { MarksModes self.now.present self.now.counts }
        ensures { result ≡ none_counted (is_obtrusive kind) self.now.counts }
    {
        self.present & obtrusive_row(kind) == 0
    }
}

// Returns the index of a mode in the order of modes.
#[inline]
fn place_of(mode: Mode) -> usize
    ensures value { result ≡ mode_rank mode }
    ensures limit { result < 11 }
{
    mode as usize
}
