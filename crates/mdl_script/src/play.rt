//! The sessions of a script over one lock space.
ghost use Rattle.std.specs.Prelude.{◌≡◌, ◌++◌, ◌≤◌, ℕ, true, false, Some, ◌∷◌, [], ◌==◌, OnOk, IfOk, All, filter, find, insert, is_some, length, map, nat_lt, not, position};
ghost use Rattle.mdl_key.specs.Words.{most_sessions};
ghost use Rattle.mdl_core.specs.CoreCalls.{has_settled};
ghost use Rattle.mdl_core.specs.CoreJoins.{SpeaksFor};
ghost use Rattle.mdl_lines.specs.Sessions.{IsScriptSession};
ghost use Rattle.mdl_script.specs.Plays.{AreSeated, IsManned, insertion_index, new_player, world_of};
ghost use Rattle.mdl_script.specs.Worlds.{after_timeout, ask_session, asked_waiting, continuing_settled, first_settled, first_world, going, line_played, most_turns, reports_of, session_waits, sessions, started, turn_of, waiting_in};
ghost use Rattle.mdl_stmt.specs.Gets.{paused};
ghost use Rattle.mdl_rows.specs.Sessions.{Session};

use crate::first_space::first_space;
use crate::told::{News, Told};
use mdl_book::Book;
use mdl_key::MOST_SESSIONS;
use mdl_space::{CoreSpace, LockSpace, Poll};
use mdl_stmt::{Progress, Reply, Runner};
use mdl_syntax::{Line, Statement};
use mdl_work::MOST_WAITS;
use std::alloc::{AllocError, Global};

/// The most turns that there can be after a line.
pub const MOST_TURNS: u32 = MOST_SESSIONS as u32 * MOST_WAITS as u32;

/// How many definitions a session's cache keeps, unless the command line says otherwise.
pub const DEFAULT_CACHE: u16 = 64;

/// A session, and the number of the line of its last statement.
#[derive(Drop)]
pub(crate) struct Player<'s> {
    runner: Runner<'s, CoreSpace>,
    line: u64,
}

/// A script that is played line by line: its sessions, numbered from 1, over one lock space.
///
/// An error means that memory ran out. The play can't be continued after it.
#[derive(Drop)]
pub struct Play<'s> {
    space: CoreSpace,
    players: Vec<Player<'s>>,
    // The numbers of the sessions that wait, in rising order.
    waiting: Vec<u16>,
}

impl<'s> Play<'s> {
    /// Returns a play before its first line: the schema `test` exists, and no session has been asked for anything.
    pub fn new(alloc: Global) -> Result<Play<'s>, AllocError>
        ensures first { IfOk result (λ play. world_of play ≡ first_world) }
        ensures manned { IfOk result IsManned }
    {
        Ok(Play {
            space: first_space(alloc)?,
            players: new_players(alloc)?,
            waiting: Vec::new(alloc),
        })
    }

    /// Plays a line: its session is asked for the statement, and then all sessions continue whose waits are settled. What becomes of the
    /// line, and of the lines of the sessions that continue, is added to `told`, in order.
    pub fn play_line(&mut self, line: &'s Line, told: &mut Vec<Told>) -> Result<(), AllocError>
        requires manned { IsManned self.old }
        requires session { IsScriptSession line.now.session }
        ensures told { OnOk result (told.new.items ≡ told.old.items ++ (line_played line.now (world_of self.old)).told) }
        ensures left { OnOk result (world_of self.new ≡ (line_played line.now (world_of self.old)).world) }
        ensures manned { OnOk result (IsManned self.new) }
    {
        self.ask(line, told)?;
        self.settle(told)
    }

    /// Asks the session of a line for its statement, and adds what becomes of the line to `told`. No other session continues yet:
    /// [`Play::settle`] does that, and has to be called before the next line. A session that waits is busy, unless the line is `TIMEOUT`,
    /// which makes its wait time out.
    pub fn ask(&mut self, line: &'s Line, told: &mut Vec<Told>) -> Result<(), AllocError>
        requires manned { IsManned self.old }
        requires session { IsScriptSession line.now.session }
        ensures told { OnOk result (told.new.items ≡ told.old.items ++ (ask_session line.now (world_of self.old)).told) }
        ensures left { OnOk result (world_of self.new ≡ (ask_session line.now (world_of self.old)).world) }
        ensures manned { OnOk result (IsManned self.new) }
    {
        if self.waits(line.session) {
            return self.ask_waiting(line, told);
        }
        self.start(line, told)
    }

    /// Continues the statement of the session with the least number whose wait is settled, until there is none, and adds what becomes of the
    /// lines to `told`.
    pub fn settle(&mut self, told: &mut Vec<Told>) -> Result<(), AllocError>
        requires manned { IsManned self.old }
        ensures told { OnOk result (told.new.items ≡ told.old.items ++ (continuing_settled most_turns (world_of self.old)).told) }
        ensures left { OnOk result (world_of self.new ≡ (continuing_settled most_turns (world_of self.old)).world) }
        ensures manned { OnOk result (IsManned self.new) }
    {
        for _turn in 0..MOST_TURNS {
            let Some(_who) = self.settle_one(told)? else {
                return Ok(());
            };
        }
        Ok(())
    }

    /// Continues the statement of the session with the least number whose wait is settled, adds what becomes of its line to `told`, and returns
    /// its number. If no wait is settled, nothing changes. There are at most [`MOST_TURNS`] such turns after a line.
    pub fn settle_one(&mut self, told: &mut Vec<Told>) -> Result<Option<u16>, AllocError>
        requires manned { IsManned self.old }
        ensures found { IfOk result (λ found. found ≡ first_settled (world_of self.old)) }
        ensures told { OnOk result (told.new.items ≡ told.old.items ++ (turn_of (first_settled (world_of self.old)) (world_of self.old)).told) }
        ensures left { OnOk result (world_of self.new ≡ (turn_of (first_settled (world_of self.old)) (world_of self.old)).world) }
        ensures manned { OnOk result (IsManned self.new) }
    {
        let Some(who) = self.first_settled() else {
            return Ok(None);
        };
        self.go(who, told)?;
        Ok(Some(who))
    }

    /// Returns the books of the lock space, one for each key that has a place.
    pub fn books(&self) -> &[Book]
        ensures { result.now ≡ (world_of self.now).core.books }
    {
        self.space.books()
    }

    /// Returns the numbers of the sessions that wait, in rising order.
    pub fn waiting(&self) -> &[u16]
        requires { IsManned self.now }
        ensures { result.now ≡ waiting_in (world_of self.now) }
    {
        self.waiting.as_slice()
    }

    /// Returns the lock space in its present state.
    pub fn into_space(self) -> CoreSpace
        ensures { result ≡ (world_of self.entry).core }
    {
        self.space
    }

    // Whether a session waits.
    fn waits(&self, who: u16) -> bool
        requires all { length self.now.players.items ≡ most_sessions }
        requires session { IsScriptSession who }
        ensures { result ≡ session_waits (world_of self.now) who }
    {
        self.players[usize::from(who) - 1].runner.is_waiting()
    }

    // Asks a session that waits for a statement.
    fn ask_waiting(&mut self, line: &Line, told: &mut Vec<Told>) -> Result<(), AllocError>
        requires manned { IsManned self.old }
        requires session { IsScriptSession line.now.session }
        ensures told { OnOk result (told.new.items ≡ told.old.items ++ (asked_waiting line.now.statement line.now.number line.now.session (world_of self.old)).told) }
        ensures left { OnOk result (world_of self.new ≡ (asked_waiting line.now.statement line.now.number line.now.session (world_of self.old)).world) }
        ensures manned { OnOk result (IsManned self.new) }
    {
        match &line.statement {
            Statement::Timeout => {
                self.time_out(line.session);
                tell(told, line.number, line.session, News::Ends(Reply::Ok))
            }
            _ => tell(told, line.number, line.session, News::Busy),
        }
    }

    // Makes the wait of a session time out.
    fn time_out(&mut self, who: u16)
        requires manned { IsManned self.old }
        requires session { IsScriptSession who }
        ensures left { world_of self.new ≡ after_timeout who (world_of self.old) }
        ensures manned { IsManned self.new }
    {
        let _settled = self.space.settle_timeout(who);
    }

    // Starts the statement of a line.
    fn start(&mut self, line: &'s Line, told: &mut Vec<Told>) -> Result<(), AllocError>
        requires manned { IsManned self.old }
        requires session { IsScriptSession line.now.session }
        requires idle { session_waits (world_of self.old) line.now.session ≡ false }
        ensures told { OnOk result (told.new.items ≡ told.old.items ++ (started line.now (world_of self.old)).told) }
        ensures left { OnOk result (world_of self.new ≡ (started line.now (world_of self.old)).world) }
        ensures manned { OnOk result (IsManned self.new) }
    {
        self.begin(line, told)?;
        if self.waits(line.session) {
            return self.note(line.session);
        }
        Ok(())
    }

    // Starts the statement of a line, and reports how far it comes. The caller notes whether the session waits.
    fn begin(&mut self, line: &'s Line, told: &mut Vec<Told>) -> Result<(), AllocError>
        requires manned { IsManned self.old }
        requires session { IsScriptSession line.now.session }
        requires idle { session_waits (world_of self.old) line.now.session ≡ false }
        ensures told { OnOk result (told.new.items ≡ told.old.items ++ (started line.now (world_of self.old)).told) }
        ensures left { OnOk result (world_of self.new ≡ (started line.now (world_of self.old)).world) }
        ensures seated { OnOk result (AreSeated self.new.space 1 self.new.players.items) }
        ensures all { length self.new.players.items ≡ most_sessions }
        ensures noted { self.new.waiting.items ≡ self.old.waiting.items }
    {
        let player = &mut self.players[usize::from(line.session) - 1];
        player.line = line.number;
        let progress = player.runner.start(&mut self.space, &line.statement)?;
        tell_progress(told, line.number, line.session, progress)
    }

    // Returns the waiting session with the least number whose wait is settled.
    fn first_settled(&mut self) -> Option<u16>
        requires { IsManned self.old }
        ensures found { result ≡ first_settled (world_of self.old) }
        ensures same { self.new ≡ self.old }
    {
        first_settled(&mut self.space, &self.waiting)
    }

    // Continues the statement of a session that waits.
    fn go(&mut self, who: u16, told: &mut Vec<Told>) -> Result<(), AllocError>
        requires manned { IsManned self.old }
        requires session { IsScriptSession who }
        requires waits { session_waits (world_of self.old) who ≡ true }
        ensures told { OnOk result (told.new.items ≡ told.old.items ++ (going who (world_of self.old)).told) }
        ensures left { OnOk result (world_of self.new ≡ (going who (world_of self.old)).world) }
        ensures manned { OnOk result (IsManned self.new) }
    {
        self.resume(who, told)?;
        if !self.waits(who) {
            self.strike(who);
        }
        Ok(())
    }

    // Continues the statement, and reports how far it comes. The caller notes whether the session still waits.
    fn resume(&mut self, who: u16, told: &mut Vec<Told>) -> Result<(), AllocError>
        requires manned { IsManned self.old }
        requires session { IsScriptSession who }
        requires waits { session_waits (world_of self.old) who ≡ true }
        ensures told { OnOk result (told.new.items ≡ told.old.items ++ (going who (world_of self.old)).told) }
        ensures left { OnOk result (world_of self.new ≡ (going who (world_of self.old)).world) }
        ensures seated { OnOk result (AreSeated self.new.space 1 self.new.players.items) }
        ensures all { length self.new.players.items ≡ most_sessions }
        ensures noted { self.new.waiting.items ≡ self.old.waiting.items }
    {
        let player = &mut self.players[usize::from(who) - 1];
        let line = player.line;
        let progress = player.runner.go_on(&mut self.space)?;
        tell_progress(told, line, who, progress)
    }

    // Adds a session to the list of those that wait, in its place in rising order.
    fn note(&mut self, who: u16) -> Result<(), AllocError>
        ensures noted { OnOk result (self.new.waiting.items ≡ insert self.old.waiting.items (insertion_index who self.old.waiting.items) who) }
        ensures space { self.new.space ≡ self.old.space }
        ensures players { self.new.players.items ≡ self.old.players.items }
    {
        let place = index_of(&self.waiting, who);
        self.waiting.insert(place, who)?;
        Ok(())
    }

    // Removes a session from the list of those that wait.
    fn strike(&mut self, who: u16)
        ensures struck { self.new.waiting.items ≡ filter (λ other. not (other == who)) self.old.waiting.items }
        ensures space { self.new.space ≡ self.old.space }
        ensures players { self.new.players.items ≡ self.old.players.items }
    {
        leave_others(&mut self.waiting, who);
    }
}

// Removes a session from a list.
fn leave_others(waiting: &mut Vec<u16>, who: u16)
    ensures { waiting.new.items ≡ filter (λ other. not (other == who)) waiting.old.items }
{
    waiting.retain(|other| *other != who);
}

// Returns where a session belongs among others in rising order.
fn index_of(waiting: &[u16], who: u16) -> usize
    ensures place { result ≡ insertion_index who waiting.now }
    ensures inside { result ≤ length waiting.now }
{
    first_greater(waiting, who).unwrap_or(waiting.len())
}

// Returns where the first session with a greater number is.
fn first_greater(waiting: &[u16], who: u16) -> Option<usize>
    ensures { result ≡ position (λ other. nat_lt who other) waiting.now }
{
    waiting.iter().position(|other| *other > who)
}

// Returns all sessions, none of which has been asked for anything.
fn new_players<'s>(alloc: Global) -> Result<Vec<Player<'s>>, AllocError>
    ensures { IfOk result (λ players. players.items ≡ map new_player sessions) }
{
    let mut players = Vec::new(alloc);
    for who in 1..MOST_SESSIONS + 1 {
        players.push(Player {
            runner: Runner::new(alloc, who, DEFAULT_CACHE)?,
            line: 0,
        })?;
    }
    Ok(players)
}

// Returns the first of these sessions whose wait is settled.
fn first_settled(space: &mut CoreSpace, waiting: &[u16]) -> Option<u16>
    requires { All (SpeaksFor space.old) waiting.now }
    ensures found { result ≡ find (has_settled space.old) waiting.now }
    ensures same { space.new ≡ space.old }
{
    if space.settled_waits() == 0 {
        return None;
    }
    for who in waiting {
        if has_settled(space, *who) {
            return Some(*who);
        }
    }
    None
}

// Whether the wait of a session is settled.
fn has_settled(space: &mut CoreSpace, who: u16) -> bool
    requires { SpeaksFor space.old who }
    ensures settled { result ≡ has_settled space.old who }
    ensures same { space.new ≡ space.old }
{
    matches!(space.poll_wait(who), Ok(Poll::Settled(_)))
}

// Adds how far the statement of a line has come. For a wait that goes on it adds nothing.
fn tell_progress(
    told: &mut Vec<Told>,
    line: u64,
    who: u16,
    progress: Progress,
) -> Result<(), AllocError>
    ensures { (session : Session) → OnOk result (told.new.items ≡ told.old.items ++ reports_of line who (paused progress session)) }
{
    match progress {
        Progress::Done(reply) => tell(told, line, who, News::Ends(reply)),
        Progress::Waiting(key, mode) => tell(told, line, who, News::Waits(key, mode)),
        Progress::Pending => Ok(()),
    }
}

// Adds what becomes of a line.
fn tell(told: &mut Vec<Told>, line: u64, who: u16, news: News) -> Result<(), AllocError>
    ensures { OnOk result (told.new.items ≡ told.old.items ++ record { line = line; who = who; news = news } ∷ []) }
{
    told.push(Told { line, who, news })?;
    Ok(())
}
