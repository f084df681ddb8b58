//! Rows of what sessions do at the place of one key, and the answers.
use crate::shared::rows::none_is_wrong;
use crate::shared::steps::visitors::Visitor;
use crate::shared::steps::{fast_tickets, words};
use mdl_key::{Key, Mode};
use mdl_steps::{Loss, Maker, WaitWord};
use mdl_word::Word;
use std::process::Abort;
use std::sync::{Arc, Wait};
use std::test::Fail;

/// What a session may do there.
#[derive(Clone, Copy)]
pub(crate) enum Deed {
    TryNow(Mode),
    BeginWait(Mode),
    Release,
    EndWait,
    TryFast(Mode),
    ReleaseFast,
    Reschedule,
    /// It reads the word of the lock.
    LockWord,
    /// It reads the word of a session's wait.
    WaitWord(u16),
    /// It settles a session's wait of this number as lost.
    Settle(u16, u64, Loss),
}

/// The answer to a deed.
#[derive(Clone, Copy, PartialEq)]
pub(crate) enum Answer {
    Granted,
    WouldWait,
    /// It waits, and its wait has this number.
    Waiting(u64),
    Done,
    /// Its wait was lost, and had this state.
    Lost(u64),
    /// A fast ticket isn't granted beside what the lock's word shows.
    Obtruded(Word),
    Contended(Word),
    /// Its fast ticket is released. Whether it owes the place a reschedule.
    Owes(bool),
    /// The word of the lock.
    Lock(Word),
    /// The word of a wait.
    Wait(WaitWord),
    /// Nothing was done.
    Refused,
}

/// A session's number, 1 to 3, what it does, and the right answer.
pub(crate) type Row = (u16, Deed, Answer);

/// What rows show, and the rows.
pub(crate) type Case = (&'static str, &'static [Row]);

// Three sessions at the place of one key, with the numbers 1 to 3.
#[derive(Drop)]
struct Visitors {
    one: Visitor,
    two: Visitor,
    three: Visitor,
}

impl Visitors {
    // Returns the session of a number.
    fn visitor(&mut self, number: u16) -> &mut Visitor {
        match number {
            3 => &mut self.three,
            2 => &mut self.two,
            _ => &mut self.one,
        }
    }

    // Returns the index of the first row with a wrong answer, if there is one.
    fn first_wrong<R: Wait>(&mut self, rt: &R, rows: &[Row]) -> Option<usize> {
        for (at, (number, deed, wanted)) in rows.iter().enumerate() {
            if self.visitor(*number).act(rt, *deed) != *wanted {
                return Some(at);
            }
        }
        None
    }
}

// Returns three sessions at the place of one key, which have done nothing else.
fn come<R: Wait + Abort + AllocGlobal>(rt: &R) -> Result<Visitors, Fail> {
    let alloc = rt.alloc();
    let sales = Key::table(alloc, "shop", "sales")?;
    let Ok((table, mut maker)) = Maker::of_places(alloc, 1, 3) else {
        panic!(rt; "there is memory for a table");
    };
    let Ok(table) = Arc::new(alloc, table) else {
        panic!(rt; "there is memory to share it");
    };
    let one = Visitor::come(rt, alloc, &table, &mut maker, &sales);
    let two = Visitor::come(rt, alloc, &table, &mut maker, &sales);
    let three = Visitor::come(rt, alloc, &table, &mut maker, &sales);
    drop(sales);
    drop(table);
    drop(maker);
    match (one, two, three) {
        (Some(one), Some(two), Some(three)) => Ok(Visitors { one, two, three }),
        _ => panic!(rt; "there is room for three"),
    }
}

// Makes the rows of each case, by three new sessions, and fails the test if an answer is wrong.
fn are_right<R: Wait + Abort + AllocGlobal>(rt: &R, cases: &[Case]) -> Result<(), Fail> {
    for (shown, rows) in cases {
        let mut visitors = come(rt)?;
        let wrong = visitors.first_wrong(rt, rows);
        drop(visitors);
        none_is_wrong(rt, shown, wrong);
    }
    Ok(())
}

#[test]
fn words_tell_of_tickets_and_waits(rt: HostRuntime) -> Result<(), Fail> {
    are_right(&rt, words::CASES)?;
    are_right(&rt, fast_tickets::CASES)
}

// A fast ticket is gained and released while another session holds the latch of the place, so it takes no latch.
#[test]
fn a_fast_ticket_needs_no_latch(rt: HostRuntime) -> Result<(), Fail> {
    let Visitors {
        mut one,
        two,
        three,
    } = come(&rt)?;
    drop(two);
    let free = three.lets_by(&mut one);
    drop(one);
    assert!(rt; free == Some(true));
    Ok(())
}

// Three fast tickets of a session that become slow are counted by the word before that, and are in its place's book after it.
#[test]
fn three_fast_tickets_become_slow(rt: HostRuntime) -> Result<(), Fail> {
    let Visitors { one, two, three } = come(&rt)?;
    drop(two);
    drop(three);
    let words = one.makes_slow(&rt, [Mode::S, Mode::S, Mode::SR]);
    let wanted = (Word(0x0000_0000_0010_0002), Word(0x1000_0000_0000_0000));
    assert!(rt; words == Some(wanted));
    Ok(())
}
