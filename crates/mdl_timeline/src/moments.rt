//! What happens at each line of a script.
ghost use Rattle.std.specs.Prelude.{◌≡◌, ◌++◌, [], All, IfOk, OnOk, flat_map};
ghost use Rattle.mdl_lines.specs.Words.{IsScriptSession};
ghost use Rattle.mdl_script.specs.Plays.{IsManned, world_of};
ghost use Rattle.mdl_script.specs.Worlds.{ask_session, continuing_settled, first_settled, line_played, most_turns, turn_of};
ghost use Rattle.mdl_timeline.specs.Moments.{moment_of, moments_of, turn_events, turns_after};

use crate::events::push_events;
use crate::statements::statement_at;
use mdl_lines::lines_of;
use mdl_picture::{Event, Moment};
use mdl_script::{Line, MOST_TURNS, Play};
use std::alloc::{AllocError, Global};

/// Plays these lines of a text, and returns the moment of each.
pub(crate) fn moments_of(
    alloc: Global,
    text: &[u8],
    lines: &[Line],
) -> Result<Vec<Moment>, AllocError>
    requires { All (λ line. IsScriptSession line.session) lines.now }
    ensures { IfOk result (λ moments. moments.items ≡ moments_of text.now lines.now) }
{
    let text_lines = lines_of(alloc, text)?;
    let mut play = Play::new(alloc)?;
    let mut moments = Vec::new(alloc);
    for line in lines {
        let statement = statement_at(alloc, &text_lines, line.number)?;
        moments.push(play_line(alloc, &mut play, line, &statement)?)?;
    }
    Ok(moments)
}

// Plays a line with this statement, and returns its moment.
fn play_line<'s>(
    alloc: Global,
    play: &mut Play<'s>,
    line: &'s Line,
    statement: &[u8],
) -> Result<Moment, AllocError>
    requires manned { IsManned play.old }
    requires session { IsScriptSession line.now.session }
    ensures moment { IfOk result (λ moment. moment ≡ moment_of statement.now line.now (world_of play.old)) }
    ensures left { OnOk result (world_of play.new ≡ (line_played line.now (world_of play.old)).world) }
    ensures manned { OnOk result (IsManned play.new) }
{
    let mut events = Vec::new(alloc);
    ask(alloc, play, line, statement, &mut events)?;
    settle(alloc, play, &mut events)?;
    Ok(Moment {
        line: line.number,
        session: line.session,
        events,
    })
}

// Asks the session of a line for its statement, and adds the events of the line.
fn ask<'s>(
    alloc: Global,
    play: &mut Play<'s>,
    line: &'s Line,
    statement: &[u8],
    events: &mut Vec<Event>,
) -> Result<(), AllocError>
    requires manned { IsManned play.old }
    requires session { IsScriptSession line.now.session }
    ensures events { OnOk result (events.new.items ≡ events.old.items ++ turn_events statement.now (ask_session line.now (world_of play.old))) }
    ensures left { OnOk result (world_of play.new ≡ (ask_session line.now (world_of play.old)).world) }
    ensures manned { OnOk result (IsManned play.new) }
{
    let mut told = Vec::new(alloc);
    play.ask(line, &mut told)?;
    push_events(events, alloc, statement, play.books(), &told)
}

// Continues the sessions whose waits are settled, one after the other, and adds the events of each turn.
fn settle(alloc: Global, play: &mut Play<'_>, events: &mut Vec<Event>) -> Result<(), AllocError>
    requires manned { IsManned play.old }
    ensures events { OnOk result (events.new.items ≡ events.old.items ++ flat_map (turn_events []) (turns_after most_turns (world_of play.old))) }
    ensures left { OnOk result (world_of play.new ≡ (continuing_settled most_turns (world_of play.old)).world) }
    ensures manned { OnOk result (IsManned play.new) }
{
    for _turn in 0..MOST_TURNS {
        let Some(_who) = settle_one(alloc, play, events)? else {
            return Ok(());
        };
    }
    Ok(())
}

// Continues the session with the least number whose wait is settled, if there is one, and adds the events of its turn.
fn settle_one(
    alloc: Global,
    play: &mut Play<'_>,
    events: &mut Vec<Event>,
) -> Result<Option<u16>, AllocError>
    requires manned { IsManned play.old }
    ensures found { IfOk result (λ found. found ≡ first_settled (world_of play.old)) }
    ensures events { OnOk result (events.new.items ≡ events.old.items ++ turn_events [] (turn_of (first_settled (world_of play.old)) (world_of play.old))) }
    ensures left { OnOk result (world_of play.new ≡ (turn_of (first_settled (world_of play.old)) (world_of play.old)).world) }
    ensures manned { OnOk result (IsManned play.new) }
{
    let mut told = Vec::new(alloc);
    let found = play.settle_one(&mut told)?;
    push_events(events, alloc, b"", play.books(), &told)?;
    Ok(found)
}
