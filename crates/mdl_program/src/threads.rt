//! A script of statements, played with a thread for each session, from bytes to bytes.
ghost use Rattle.std.specs.Prelude.{◌≡◌, OnOk, IfOk, IfErr, IfSome, IsOk};
ghost use Rattle.std.specs.String.{string_bytes};
ghost use Rattle.mdl_lines.specs.Words.{IsFaultOf, MayEnd};
ghost use Rattle.mdl_stmt.specs.Attendance.{IsCapacity};
ghost use Rattle.mdl_syntax.specs.Scripts.{parsed};
ghost use Rattle.mdl_script.specs.Answers.{options_of};
ghost use Rattle.mdl_program.specs.Threads.{IsThreadsText, ThreadsLeave};

use mdl_lines::{Fault, read_all, write_all};
use mdl_script::{OpenGate, parse, run_threads};
use std::alloc::{AllocError, Global};
use std::io::{Read, Write};
use std::sync::Wait;
use std::thread::Threads;

/// Plays a script of statements with a thread for each of its sessions, and writes the answers.
///
/// Reads everything, checks all lines, plays them, and only then writes.
#[tactic(auto, using(crate::proofs::TellLemmas::leaves_told, crate::proofs::TellLemmas::leaves_part))]
pub(crate) fn play_on_threads<T: Threads + Wait + Sync, R: Read, W: Write>(
    rt: &T,
    alloc: Global,
    patience: u32,
    cache: u16,
    input: &mut R,
    output: &mut W,
) -> Result<(), Fault>
    requires { IsCapacity cache }
    ensures ends { IfSome (R.remaining input.old) (λ bytes. MayEnd (parsed bytes) result) }
    ensures leaves { IfSome (R.remaining input.old) (λ bytes. ThreadsLeave (options_of patience cache) (parsed bytes) result (W.contents output.old) (W.contents output.new)) }
{
    let text = read_all(alloc, input)?;
    let told = tell(rt, alloc, patience, cache, text)?;
    write_all(output, told.as_bytes())
}

// Returns the text of a run of a script. The script's text is freed before its lines are played: they keep what they need of it.
fn tell<T: Threads + Wait + Sync>(
    rt: &T,
    alloc: Global,
    patience: u32,
    cache: u16,
    text: Vec<u8>,
) -> Result<String, Fault>
    requires { IsCapacity cache }
    ensures told { IfOk result (λ told. IsThreadsText (options_of patience cache) (parsed text.items) (string_bytes told)) }
    ensures accepted { OnOk result (IsOk (parsed text.items)) }
    ensures fault { IfErr result (IsFaultOf (parsed text.items)) }
{
    let script = parse(alloc, &text)?;
    drop(text);
    match run_threads(rt, alloc, &script, patience, cache, &OpenGate) {
        Ok(told) => Ok(told),
        Err(AllocError) => Err(Fault::Memory),
    }
}
