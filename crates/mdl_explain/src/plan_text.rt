//! The text of a plan.
ghost use Rattle.std.specs.Prelude.{◌≡◌, ◌++◌, OnOk};
ghost use Rattle.mdl_explain.specs.Explanations.{named_after, own_plan, plan_text, step_line, steps_text, words_line};

use crate::phrases::{mode_text, step_text};
use mdl_lines::push;
use mdl_plans::{Keys, Step};
use std::alloc::AllocError;

/// Appends the lines of a plan.
#[tactic(auto, unfolding(crate::specs::Explanations::plan_text))]
pub(crate) fn push_plan(out: &mut Vec<u8>, plan: &[Step]) -> Result<(), AllocError>
    ensures { OnOk result (out.new.items ≡ out.old.items ++ plan_text plan.now) }
{
    if plan.is_empty() {
        return push(
            out,
            b"  nothing is locked; if the session waits, its wait times out\n",
        );
    }
    push_steps(out, plan)
}

/// Appends the plan of a session that has more than others behind its heading, if it is a plan of its own.
#[tactic(auto, unfolding(crate::specs::Explanations::own_plan))]
pub(crate) fn push_own_plan(
    out: &mut Vec<u8>,
    is_own: bool,
    heading: &[u8],
    plan: &[Step],
) -> Result<(), AllocError>
    ensures { OnOk result (out.new.items ≡ out.old.items ++ own_plan is_own heading.now plan.now) }
{
    if !is_own {
        return Ok(());
    }
    push(out, heading)?;
    push_plan(out, plan)
}

// Appends the lines of steps.
fn push_steps(out: &mut Vec<u8>, steps: &[Step]) -> Result<(), AllocError>
    ensures { OnOk result (out.new.items ≡ out.old.items ++ steps_text Keys.Tables steps.now) }
{
    let mut named = Keys::Tables;
    for step in steps {
        push_step(out, named, *step)?;
        named = named_after(named, *step);
    }
    Ok(())
}

// Appends the line of a step, after steps that named these keys last.
fn push_step(out: &mut Vec<u8>, named: Keys, step: Step) -> Result<(), AllocError>
    ensures { OnOk result (out.new.items ≡ out.old.items ++ step_line named step) }
{
    push_words(
        out,
        mode_text(named, step).as_bytes(),
        step_text(named, step).as_bytes(),
    )
}

// Appends the line of a mode and words, if there are words.
fn push_words(out: &mut Vec<u8>, mode: &[u8], words: &[u8]) -> Result<(), AllocError>
    ensures { OnOk result (out.new.items ≡ out.old.items ++ words_line mode.now words.now) }
{
    if words.is_empty() {
        return Ok(());
    }
    push(out, b"  ")?;
    push(out, mode)?;
    push(out, words)?;
    push(out, b"\n")
}

// The keys named last, once a step is done.
fn named_after(named: Keys, step: Step) -> Keys
    ensures { result ≡ named_after named step }
{
    match step {
        Step::Name(which) => which,
        _ => named,
    }
}
