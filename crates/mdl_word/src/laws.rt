//! Laws of the words. Each is proved as the contract of a function that does nothing.
ghost use Rattle.std.specs.Prelude.{◌≡◌, ◌^◌};
ghost use Rattle.mdl_word.specs.Laws.{LawfulWords, WordsAreReadOneWay, AddingCountsOneMore, SubtractingCountsOneLess, ManyAreCountedAtOnce, FlagsAreRaisedAndLowered, FlagsAreRaisedAtOnce, FlagsAreLoweredAtOnce, CountsFit, ClassesClashAsOne, CountedModesDontClash, LargerCountsBlockMore, BlocksWhereCountedTicketsClash};

use crate::Word;

/// [`Word::SLOW`] is bit 60 and [`Word::OBTRUSIVE`] bit 61.
pub fn flags_are_bits()
    ensures slow { Word.SLOW ≡ 2 ^ 60 }
    ensures obtrusive { Word.OBTRUSIVE ≡ 2 ^ 61 }
{}

/// The lawful words are the numbers below 2^62.
pub fn lawful_words()
    ensures { LawfulWords }
{}

/// No two sets of counts and flags have the same word.
pub fn words_are_read_one_way()
    ensures { WordsAreReadOneWay }
{}

/// Adding an increment counts one ticket more in its class and changes nothing else, if that class has fewer than
/// 1,048,575.
pub fn adding_counts_one_more()
    ensures { AddingCountsOneMore }
{}

/// Subtracting an increment undoes its addition.
pub fn subtracting_counts_one_less()
    ensures { SubtractingCountsOneLess }
{}

/// Any number of tickets in each class can be added or subtracted at once.
pub fn many_are_counted_at_once()
    ensures { ManyAreCountedAtOnce }
{}

/// Raising or lowering a flag, by `|` or `&`, changes that flag alone.
pub fn flags_are_raised_and_lowered()
    ensures { FlagsAreRaisedAndLowered }
{}

/// `|` with [`Word::raising`] raises just those flags: in a lawful word, and in any other number.
pub fn flags_are_raised_at_once()
    ensures { FlagsAreRaisedAtOnce }
{}

/// `&` with [`Word::keeping`] lowers just the other flags: in a lawful word, and in any other number.
pub fn flags_are_lowered_at_once()
    ensures { FlagsAreLoweredAtOnce }
{}

/// The tickets of up to 1,024 sessions, up to 1,023 of each, never overflow a count into the next one.
pub fn counts_fit()
    ensures { CountsFit }
{}

/// The modes of one class clash with the same requests, so that any one of them can represent the class.
pub fn classes_clash_as_one()
    ensures { ClassesClashAsOne }
{}

/// Counted tickets of one lock don't clash with one another, whichever sessions they are of.
pub fn counted_modes_dont_clash()
    ensures { CountedModesDontClash }
{}

/// What a word blocks is blocked by every word that counts at least as many tickets in each class.
pub fn larger_counts_block_more()
    ensures { LargerCountsBlockMore }
{}

/// [`Word::blocks`] is true exactly if a mode clashes with the request and tickets are counted in its class.
pub fn blocks_where_counted_tickets_clash()
    ensures { BlocksWhereCountedTicketsClash }
{}
