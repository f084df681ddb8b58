//! Draws a script.
ghost use Rattle.std.specs.Prelude.{◌≡◌, All, IfErr, IfOk, IsOk, OnOk};
ghost use Rattle.mdl_lines.specs.Words.{IsFaultOf, IsScriptSession};
ghost use Rattle.mdl_picture.specs.Pictures.{picture_text};
ghost use Rattle.mdl_script.specs.Output.{lines_until};
ghost use Rattle.mdl_syntax.specs.Scripts.{parsed};
ghost use Rattle.mdl_timeline.specs.Moments.{moments_of};

use crate::moments::moments_of;
use mdl_lines::Fault;
use mdl_picture::picture;
use mdl_script::{Line, lines_until, parse};
use std::alloc::{AllocError, Global};

/// Plays the lines of a script up to the one of this number, as `replay` of `mdl_script` does, and returns a picture of what happens at them, as
/// SVG. All lines are parsed first. A refused line, also a later one, refuses the script.
pub fn draw(alloc: Global, text: &[u8], last: u64) -> Result<Vec<u8>, Fault>
    // The picture of what happens at those lines.
    ensures picture { IfOk result (λ out. IfOk (parsed text.now) (λ lines. out.items ≡ picture_text (moments_of text.now (lines_until last lines)))) }

    // Refused by the first refused line, and by no other.
    ensures accepted { OnOk result (IsOk (parsed text.now)) }
    ensures fault { IfErr result (IsFaultOf (parsed text.now)) }
{
    let script = parse(alloc, text)?;
    match draw_lines(alloc, text, lines_until(script.lines(), last)) {
        Ok(picture) => Ok(picture),
        Err(AllocError) => Err(Fault::Memory),
    }
}

/// Plays these lines of a script with this text, and returns a picture of what happens at them, as SVG. Their sessions must be those that a script
/// can name, as in lines that were parsed.
pub fn draw_lines(alloc: Global, text: &[u8], lines: &[Line]) -> Result<Vec<u8>, AllocError>
    requires { All (λ line. IsScriptSession line.session) lines.now }
    ensures { IfOk result (λ out. out.items ≡ picture_text (moments_of text.now lines.now)) }
{
    let moments = moments_of(alloc, text, lines)?;
    picture(alloc, &moments)
}
