//! Scripts that are played line by line.
ghost use Rattle.std.specs.Prelude.{IfOk, OnOk};
ghost use Rattle.mdl_lines.specs.Sessions.{IsScriptSession};
ghost use Rattle.mdl_script.specs.Plays.{IsManned};

use mdl_key::MOST_SESSIONS;
use mdl_script::{Fault, Line, Play, Script, Told, parse, push_end, push_told, space_after};
use std::alloc::{AllocError, Global};
use std::mem::drop;
use std::test::Fail;

// A wait that is granted, a line of a session that waits, and a wait that never ends.
const SCRIPT: &[u8] = b"\
1 CREATE TABLE t x
1 BEGIN
1 SELECT t
2 DROP TABLE t
2 BEGIN
1 COMMIT
1 CREATE TABLE t x
1 BEGIN
1 SELECT t
2 DROP TABLE t
";

// Plays a line in two steps: asks, then settles.
fn play_line<'s>(
    play: &mut Play<'s>,
    line: &'s Line,
    told: &mut Vec<Told>,
) -> Result<(), AllocError>
    requires manned { IsManned play.old }
    ensures manned { OnOk result (IsManned play.new) }
{
    if line.session == 0 || line.session > MOST_SESSIONS {
        return Ok(());
    }
    play.ask(line, told)?;
    play.settle(told)
}

// Plays the lines of a script, each in two steps.
fn play_each<'s>(
    play: &mut Play<'s>,
    script: &'s Script,
    told: &mut Vec<Told>,
) -> Result<(), AllocError>
    requires manned { IsManned play.old }
    ensures manned { OnOk result (IsManned play.new) }
{
    for line in script.lines() {
        play_line(play, line, told)?;
    }
    Ok(())
}

// The same by new sessions. Returns the play after them.
fn play_lines<'s>(
    alloc: Global,
    script: &'s Script,
    told: &mut Vec<Told>,
) -> Result<Play<'s>, AllocError>
    ensures manned { IfOk result IsManned }
{
    let mut play = Play::new(alloc)?;
    match play_each(&mut play, script, told) {
        Ok(()) => Ok(play),
        Err(lack) => {
            drop(play);
            Err(lack)
        }
    }
}

// Asks the session of a line, and returns the sessions that continue in the next three turns.
fn three_turns<'s>(
    alloc: Global,
    play: &mut Play<'s>,
    line: &'s Line,
) -> Result<[Option<u16>; 3], AllocError>
    requires manned { IsManned play.old }
    ensures manned { OnOk result (IsManned play.new) }
{
    if line.session == 0 || line.session > MOST_SESSIONS {
        return Ok([None, None, None]);
    }
    let mut told = Vec::new(alloc);
    let turns = turns_after(play, line, &mut told);
    drop(told);
    turns
}

// The same, with a place for the answers.
fn turns_after<'s>(
    play: &mut Play<'s>,
    line: &'s Line,
    told: &mut Vec<Told>,
) -> Result<[Option<u16>; 3], AllocError>
    requires manned { IsManned play.old }
    requires session { IsScriptSession line.now.session }
    ensures manned { OnOk result (IsManned play.new) }
{
    play.ask(line, told)?;
    let first = play.settle_one(told)?;
    let second = play.settle_one(told)?;
    let third = play.settle_one(told)?;
    Ok([first, second, third])
}

// Plays a line in one step. Its answers are dropped.
fn play_unheard<'s>(alloc: Global, play: &mut Play<'s>, line: &'s Line) -> Result<(), AllocError>
    requires manned { IsManned play.old }
    ensures manned { OnOk result (IsManned play.new) }
{
    let mut told = Vec::new(alloc);
    let played = play_line(play, line, &mut told);
    drop(told);
    played
}

// Plays lines in one step each. Their answers are dropped.
fn play_all_unheard<'s>(
    alloc: Global,
    play: &mut Play<'s>,
    lines: &'s [Line],
) -> Result<(), AllocError>
    requires manned { IsManned play.old }
    ensures manned { OnOk result (IsManned play.new) }
{
    for line in lines {
        play_unheard(alloc, play, line)?;
    }
    Ok(())
}

// Plays all lines of a script but the last in one step each, and returns the turns that follow the last one.
fn last_turns(alloc: Global, script: &Script) -> Result<[Option<u16>; 3], AllocError> {
    let [first @ .., last] = script.lines() else {
        return Ok([None, None, None]);
    };
    let mut play = Play::new(alloc)?;
    let turns = match play_all_unheard(alloc, &mut play, first) {
        Ok(()) => three_turns(alloc, &mut play, last),
        Err(lack) => Err(lack),
    };
    drop(play);
    turns
}

// Returns what is printed for a script that is played line by line, and for each session that still waits.
fn played(alloc: Global, script: &Script) -> Result<String, AllocError> {
    let mut told = Vec::new(alloc);
    let text = played_into(alloc, script, &mut told);
    drop(told);
    text
}

// The same, with a place for the answers.
fn played_into(alloc: Global, script: &Script, told: &mut Vec<Told>) -> Result<String, AllocError> {
    let play = play_lines(alloc, script, told)?;
    let text = text_of(alloc, told, play.waiting());
    drop(play);
    text
}

// Whether this is what is printed.
fn is_played_so(alloc: Global, script: &Script, want: &str) -> bool {
    match played(alloc, script) {
        Ok(text) => text.as_str() == want,
        Err(_) => false,
    }
}

// Returns the text of these answers, and of these sessions that wait.
fn text_of(alloc: Global, told: &[Told], waiting: &[u16]) -> Result<String, AllocError> {
    let mut out = String::new(alloc);
    for told in told {
        push_told(&mut out, told)?;
    }
    for who in waiting {
        push_end(&mut out, *who)?;
    }
    Ok(out)
}

// Returns how many books there are after a script was played line by line.
fn books_left(alloc: Global, script: &Script) -> Result<usize, AllocError> {
    let mut told = Vec::new(alloc);
    let books = count_books(alloc, script, &mut told);
    drop(told);
    books
}

// The same, with a place for the answers.
fn count_books(alloc: Global, script: &Script, told: &mut Vec<Told>) -> Result<usize, AllocError> {
    let play = play_lines(alloc, script, told)?;
    let books = play.books().len();
    drop(play);
    Ok(books)
}

// Returns how many there are after it was played to its end.
fn books_after(alloc: Global, script: &[u8]) -> Result<usize, Fault> {
    let space = space_after(alloc, script, u64::MAX)?;
    let books = space.books().len();
    drop(space);
    Ok(books)
}

const ANSWERS: &str = "\
1 1 OK
2 1 OK
3 1 OK test.t@1(x)
4 2 WAIT TABLE test.t X
5 2 BUSY
6 1 OK
4 2 OK
7 1 OK
8 1 OK
9 1 OK test.t@3(x)
10 2 WAIT TABLE test.t X
END 2 WAIT
";

#[test]
fn a_play_answers_as_replay_does(rt: HostRuntime) -> Result<(), Fail> {
    let script = parse(rt.alloc(), SCRIPT)?;
    let is_so = is_played_so(rt.alloc(), &script, ANSWERS);
    drop(script);
    assert!(rt; is_so);
    Ok(())
}

// The schema, the table, and the global lock.
#[test]
fn a_play_shows_the_books_that_a_script_leaves(rt: HostRuntime) -> Result<(), Fail> {
    let script = parse(rt.alloc(), SCRIPT)?;
    let left = books_left(rt.alloc(), &script);
    drop(script);
    assert!(rt; left? == books_after(rt.alloc(), SCRIPT)?);
    Ok(())
}

// Two sessions wait for one that ends. The one that came later has the lesser number.
const TWO_WAIT: &[u8] = b"\
1 CREATE TABLE t x
1 LOCK TABLES t WRITE
3 SELECT t
2 SELECT t
1 UNLOCK TABLES
";

#[test]
fn the_least_settled_session_continues_first(rt: HostRuntime) -> Result<(), Fail> {
    let script = parse(rt.alloc(), TWO_WAIT)?;
    let turns = last_turns(rt.alloc(), &script);
    drop(script);
    assert!(rt; turns? == [Some(2), Some(3), None]);
    Ok(())
}
