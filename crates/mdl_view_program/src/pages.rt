//! The page of a script.
ghost use Rattle.std.specs.Prelude.{All, IfErr, IfOk, IfSome, IsOk, OnOk};
ghost use Rattle.mdl_lines.specs.Words.{IsFaultOf, IsScriptSession, MayEnd};
ghost use Rattle.mdl_syntax.specs.Laws.{RiseFrom};
ghost use Rattle.mdl_syntax.specs.Scripts.{parsed};
ghost use Rattle.mdl_view_program.specs.Pages.{AreFacts, IsFacts, PagesLines, PagesScript};
ghost use Rattle.mdl_view_program.specs.Programs.{LeavesAnswer};

use crate::answers::answer_of_books;
use crate::question::{Form, Question};
use mdl_book::Book;
use mdl_lines::{Fault, read_all, write_all};
use mdl_page::{LineFacts, page};
use mdl_script::{Line, Play, lines_until, parse};
use mdl_timeline::draw_lines;
use std::alloc::{AllocError, Global};
use std::io::{Read, Write};

/// Plays a script of statements in one thread to the end of the line of this number, and writes a page of HTML: the picture of what happens at its
/// lines, its text, and for each line the locks right after it, who blocks whom, and what would follow if sessions ended. It reads all input and
/// parses all lines before it writes.
pub fn draw_page<R: Read, W: Write>(
    alloc: Global,
    last: u64,
    input: &mut R,
    output: &mut W,
) -> Result<(), Fault>
    ensures ends { IfSome (R.remaining input.old) (λ bytes. MayEnd (parsed bytes) result) }
    ensures written { IfSome (R.remaining input.old) (λ bytes.
        LeavesAnswer (PagesScript last bytes (parsed bytes)) result (W.contents output.old) (W.contents output.new)) }
{
    let text = read_all(alloc, input)?;
    let page = page_of_script(alloc, last, &text)?;
    write_all(output, &page)
}

// The page of what happens up to the line of this number.
fn page_of_script(alloc: Global, last: u64, text: &[u8]) -> Result<Vec<u8>, Fault>
    ensures page { IfOk result (λ page. PagesScript last text.now (parsed text.now) page.items) }
    ensures accepted { OnOk result (IsOk (parsed text.now)) }
    ensures fault { IfErr result (IsFaultOf (parsed text.now)) }
{
    let script = parse(alloc, text)?;
    match page_of_lines(alloc, text, lines_until(script.lines(), last)) {
        Ok(page) => Ok(page),
        Err(AllocError) => Err(Fault::Memory),
    }
}

// The page of these lines of a script with this text.
fn page_of_lines(alloc: Global, text: &[u8], lines: &[Line]) -> Result<Vec<u8>, AllocError>
    requires sessions { All (λ line. IsScriptSession line.session) lines.now }
    requires order { RiseFrom 1 lines.now }
    ensures { IfOk result (λ page. PagesLines text.now lines.now page.items) }
{
    let picture = draw_lines(alloc, text, lines)?;
    let facts = facts_of(alloc, lines)?;
    page(alloc, &picture, text, &facts)
}

// Plays these lines, and returns what is shown of each.
fn facts_of(alloc: Global, lines: &[Line]) -> Result<Vec<LineFacts>, AllocError>
    requires sessions { All (λ line. IsScriptSession line.session) lines.now }
    requires order { RiseFrom 1 lines.now }
    ensures { IfOk result (λ facts. AreFacts lines.now facts.items) }
{
    let mut play = Play::new(alloc)?;
    let mut told = Vec::new(alloc);
    let mut facts = Vec::new(alloc);
    for line in lines {
        play.play_line(line, &mut told)?;
        facts.push(facts_at(alloc, line.number, play.books())?)?;
        told.clear();
    }
    Ok(facts)
}

// What is shown of the line of this number, which leaves these books.
fn facts_at(alloc: Global, line: u64, books: &[Book]) -> Result<LineFacts, AllocError>
    ensures { IfOk result (λ facts. IsFacts line books.now facts) }
{
    Ok(LineFacts {
        line,
        locks: answer_of_books(alloc, Question::Locks(Form::Json), books)?,
        waits: answer_of_books(alloc, Question::Waits(Form::Json), books)?,
        why: answer_of_books(alloc, Question::Why(Form::Json), books)?,
    })
}
