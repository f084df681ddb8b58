//! Plays a script of statements from bytes to bytes.
ghost use Rattle.std.specs.Prelude.{◌≡◌, ◌≤◌, ◌++◌, OnOk, IfOk, IfErr, IfSome, IsOk, All, length, position};
ghost use Rattle.std.specs.List.{position_or_len};
ghost use Rattle.std.specs.Io.KnownBytes.{Appends, IsAtEnd};
ghost use Rattle.std.specs.String.{string_bytes};
ghost use Rattle.mdl_lines.specs.Devices.{LeavesWritten};
ghost use Rattle.mdl_lines.specs.Faults.{IsFaultOf, MayEnd};
ghost use Rattle.mdl_lines.specs.Sessions.{IsScriptSession};
ghost use Rattle.mdl_syntax.specs.Scripts.{parsed};
ghost use Rattle.mdl_script.specs.Plays.{IsManned, world_of};
ghost use Rattle.mdl_script.specs.Output.{NeverForgets, StaysLawful, is_after, lines_until, output_of, scene_text};
ghost use Rattle.mdl_script.specs.Texts.{told_text};
ghost use Rattle.mdl_script.specs.Worlds.{script_played};

use crate::play::Play;
use crate::told::{push_all_told, push_ends};
use mdl_lines::{Fault, read_all, write_all};
use mdl_space::CoreSpace;
use mdl_syntax::{Line, parse};
use std::alloc::{AllocError, Global};
use std::io::{Read, Write};

/// Plays a script of statements in one thread, and writes what becomes of its lines.
///
/// Reads everything and checks all lines before it plays them, and writes only then. The contract covers readers and writers that show their
/// bytes, as a slice, a cursor or a vector does. A file or a terminal doesn't.
#[tactic(auto, using(crate::proofs::SoundLemmas::stays_lawful_if, crate::proofs::SoundLemmas::never_forgets_if))]
pub fn replay<R: Read, W: Write>(alloc: Global, reader: &mut R, writer: &mut W) -> Result<(), Fault>
    // On success, what was written is the defined output of what was read, and all was read.
    ensures output { OnOk result (IfSome (R.remaining reader.old) (λ input.
        Appends (W.contents writer.old) (W.contents writer.new) (output_of input))) }
    ensures end { OnOk result (IsAtEnd (R.remaining reader.new)) }

    // A script is refused for its first bad line, and for no other.
    ensures ends { IfSome (R.remaining reader.old) (λ input. MayEnd (parsed input) result) }

    // After a fault, a first part of the output was written but never all of it, and nothing unless writing failed.
    ensures fault { IfErr result (λ fault. IfSome (R.remaining reader.old) (λ input.
        LeavesWritten fault (W.contents writer.old) (W.contents writer.new) (output_of input))) }

    // While that output is made, no two sessions ever hold locks that clash.
    ensures lawful { IfSome (R.remaining reader.old) (λ input. StaysLawful (parsed input)) }

    // No session is ever left waiting for a lock that could be granted.
    ensures none_forgotten { IfSome (R.remaining reader.old) (λ input. NeverForgets (parsed input)) }
{
    let input = read_all(alloc, reader)?;
    let output = output(alloc, input)?;
    write_all(writer, output.as_bytes())?;
    Ok(())
}

// Returns the output of a script. The text is freed before the lines are played: they keep what they need of it.
fn output(alloc: Global, text: Vec<u8>) -> Result<String, Fault>
    ensures output { IfOk result (λ output. string_bytes output ≡ output_of text.items) }
    ensures accepted { OnOk result (IsOk (parsed text.items)) }
    ensures fault { IfErr result (IsFaultOf (parsed text.items)) }
{
    let script = parse(alloc, &text)?;
    drop(text);
    match play_all(alloc, script.lines()) {
        Ok(output) => Ok(output),
        Err(AllocError) => Err(Fault::Memory),
    }
}

// Returns the text of lines that are played over a new space.
fn play_all(alloc: Global, lines: &[Line]) -> Result<String, AllocError>
    requires { All (λ line. IsScriptSession line.session) lines.now }
    ensures { IfOk result (λ output. string_bytes output ≡ scene_text (script_played lines.now)) }
{
    let mut out = String::new(alloc);
    let play = play_lines(alloc, lines, &mut out)?;
    push_ends(&mut out, play.waiting())?;
    Ok(out)
}

// Plays lines over a new space. After each line, appends to a text what becomes of it, and of the lines of the sessions that continue.
fn play_lines<'s>(
    alloc: Global,
    lines: &'s [Line],
    out: &mut String,
) -> Result<Play<'s>, AllocError>
    requires { All (λ line. IsScriptSession line.session) lines.now }
    ensures told { OnOk result (string_bytes out.new ≡ string_bytes out.old ++ told_text (script_played lines.now).told) }
    ensures left { IfOk result (λ play. world_of play ≡ (script_played lines.now).world) }
    ensures manned { IfOk result IsManned }
{
    let mut play = Play::new(alloc)?;
    let mut told = Vec::new(alloc);
    for line in lines {
        play.play_line(line, &mut told)?;
        push_all_told(out, &told)?;
        told.clear();
    }
    Ok(play)
}

/// Plays the lines of a script up to the one of this number, and the turns that follow it, as [`replay`] does, and returns the lock space
/// that they leave. All lines are checked first: one refused line refuses the script.
pub fn space_after(alloc: Global, text: &[u8], last: u64) -> Result<CoreSpace, Fault>
    // The space shows what each session holds and waits for then, and what is defined.
    ensures space { IfOk result (λ space. IfOk (parsed text.now) (λ lines. space ≡ (script_played (lines_until last lines)).world.core)) }

    // A script is refused for its first bad line, and for no other.
    ensures accepted { OnOk result (IsOk (parsed text.now)) }
    ensures fault { IfErr result (IsFaultOf (parsed text.now)) }
{
    let script = parse(alloc, text)?;
    match play_until(alloc, script.lines(), last) {
        Ok(space) => Ok(space),
        Err(AllocError) => Err(Fault::Memory),
    }
}

// Plays the lines up to the one of this number over a new space.
fn play_until(alloc: Global, lines: &[Line], last: u64) -> Result<CoreSpace, AllocError>
    requires { All (λ line. IsScriptSession line.session) lines.now }
    ensures { IfOk result (λ space. space ≡ (script_played (lines_until last lines.now)).world.core) }
{
    let mut out = String::new(alloc);
    let play = play_lines(alloc, lines_until(lines, last), &mut out)?;
    Ok(play.into_space())
}

/// Returns the lines up to the one of this number.
pub fn lines_until(lines: &[Line], last: u64) -> &[Line]
    ensures { result.now ≡ lines_until last lines.now }
{
    &lines[..count_until(lines, last)]
}

// Returns how many lines there are up to the one of this number.
fn count_until(lines: &[Line], last: u64) -> usize
    ensures place { result ≡ position_or_len (is_after last) lines.now }
    ensures inside { result ≤ length lines.now }
{
    first_after(lines, last).unwrap_or(lines.len())
}

// Returns where the first line with a greater number is.
fn first_after(lines: &[Line], last: u64) -> Option<usize>
    ensures { result ≡ position (is_after last) lines.now }
{
    lines.iter().position(|line| line.number > last)
}
