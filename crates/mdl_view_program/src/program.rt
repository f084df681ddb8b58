//! What the program does once the words of its command line are read.
ghost use Rattle.std.specs.Prelude.{IfErr, IfOk, IfSome, IsOk, OnOk};
ghost use Rattle.mdl_lines.specs.Words.{IsFaultOf, MayEnd};
ghost use Rattle.mdl_syntax.specs.Scripts.{parsed};
ghost use Rattle.mdl_view_program.specs.Programs.{AnswersScript, DrawsScript, LeavesAnswer};

use crate::answers::answer_of_books;
use crate::question::Question;
use mdl_lines::{Fault, read_all, write_all};
use mdl_script::space_after;
use mdl_timeline::draw;
use std::alloc::{AllocError, Global};
use std::io::{Read, Write};

/// Plays a script of statements in one thread to the end of the line of this number, with all that follows from it, and writes the answer to a
/// question about the locks then. It reads all input and parses all lines before it writes.
#[tactic(auto, using(crate::proofs::AnswerLemmas::leaves_answer, crate::proofs::AnswerLemmas::leaves_part))]
pub fn view_script<R: Read, W: Write>(
    alloc: Global,
    question: Question,
    last: u64,
    input: &mut R,
    output: &mut W,
) -> Result<(), Fault>
    ensures ends { IfSome (R.remaining input.old) (λ bytes. MayEnd (parsed bytes) result) }
    ensures written { IfSome (R.remaining input.old) (λ bytes.
        LeavesAnswer (AnswersScript question last (parsed bytes)) result (W.contents output.old) (W.contents output.new)) }
{
    let text = read_all(alloc, input)?;
    let answer = answer_of_script(alloc, question, last, &text)?;
    write_all(output, &answer)
}

/// Plays a script of statements in one thread to the end of the line of this number, and writes a picture of what happens at its lines, as SVG.
/// It reads all input and parses all lines before it writes.
#[tactic(auto, using(crate::proofs::AnswerLemmas::leaves_answer, crate::proofs::AnswerLemmas::leaves_part))]
pub fn draw_script<R: Read, W: Write>(
    alloc: Global,
    last: u64,
    input: &mut R,
    output: &mut W,
) -> Result<(), Fault>
    ensures ends { IfSome (R.remaining input.old) (λ bytes. MayEnd (parsed bytes) result) }
    ensures written { IfSome (R.remaining input.old) (λ bytes.
        LeavesAnswer (DrawsScript last bytes (parsed bytes)) result (W.contents output.old) (W.contents output.new)) }
{
    let text = read_all(alloc, input)?;
    let picture = picture_of_script(alloc, last, &text)?;
    write_all(output, &picture)
}

// The picture of what happens up to the line of this number.
#[tactic(auto, using(crate::proofs::AnswerLemmas::script_drawn))]
fn picture_of_script(alloc: Global, last: u64, text: &[u8]) -> Result<Vec<u8>, Fault>
    ensures picture { IfOk result (λ picture. DrawsScript last text.now (parsed text.now) picture.items) }
    ensures accepted { OnOk result (IsOk (parsed text.now)) }
    ensures fault { IfErr result (IsFaultOf (parsed text.now)) }
{
    draw(alloc, text, last)
}

// The answer to a question about the locks after the line of this number.
fn answer_of_script(
    alloc: Global,
    question: Question,
    last: u64,
    text: &[u8],
) -> Result<Vec<u8>, Fault>
    ensures answer { IfOk result (λ answer. AnswersScript question last (parsed text.now) answer.items) }
    ensures accepted { OnOk result (IsOk (parsed text.now)) }
    ensures fault { IfErr result (IsFaultOf (parsed text.now)) }
{
    let space = space_after(alloc, text, last)?;
    match answer_of_books(alloc, question, space.books()) {
        Ok(answer) => Ok(answer),
        Err(AllocError) => Err(Fault::Memory),
    }
}
