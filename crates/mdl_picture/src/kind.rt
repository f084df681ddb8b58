//! The style of shapes.
ghost use Rattle.std.specs.Prelude.{◌≡◌, ◌++◌, flat_map, IfOk, OnOk};
ghost use Rattle.mdl_picture.specs.Kinds.{day_rule, day_style, kind_name, night_rule, night_style, rule, style};

use mdl_lines::push;
use std::alloc::{AllocError, Global};

/// What a shape shows, which decides its style.
#[derive(Clone, Copy)]
pub(crate) enum Kind {
    /// The background.
    Ground,
    /// The row of a session.
    Lane,
    /// The column of a line.
    Guide,
    /// The number of a line.
    Number,
    /// Other words.
    Words,
    /// The words of a statement.
    Said,
    /// A statement that is done.
    Done,
    /// A statement that begins to wait.
    Waiting,
    /// A statement that is ended by an error.
    Failed,
    /// A statement that is refused, since its session waits for another one.
    Refused,
    /// A wait.
    Bar,
    /// The stripes of a wait.
    Stripes,
    /// What a session holds.
    Held,
    /// The mode in which it is held.
    Mode,
    /// An arrow to a session that blocks a wait.
    Arrow,
    /// The end of an arrow.
    Head,
}

// All kinds.
const KINDS: [Kind; 16] = [
    Kind::Ground,
    Kind::Lane,
    Kind::Guide,
    Kind::Number,
    Kind::Words,
    Kind::Said,
    Kind::Done,
    Kind::Waiting,
    Kind::Failed,
    Kind::Refused,
    Kind::Bar,
    Kind::Stripes,
    Kind::Held,
    Kind::Mode,
    Kind::Arrow,
    Kind::Head,
];

/// Returns the class name of shapes of a kind in a style.
pub(crate) fn kind_name(kind: Kind) -> &'static [u8]
    ensures { result.now ≡ kind_name kind }
{
    match kind {
        Kind::Ground => b"ground",
        Kind::Lane => b"lane",
        Kind::Guide => b"guide",
        Kind::Number => b"number",
        Kind::Words => b"words",
        Kind::Said => b"said",
        Kind::Done => b"done",
        Kind::Waiting => b"waiting",
        Kind::Failed => b"failed",
        Kind::Refused => b"refused",
        Kind::Bar => b"bar",
        Kind::Stripes => b"stripes",
        Kind::Held => b"held",
        Kind::Mode => b"mode",
        Kind::Arrow => b"arrow",
        Kind::Head => b"head",
    }
}

// The style of a kind in a light scheme.
fn day_style(kind: Kind) -> &'static [u8]
    ensures { result.now ≡ day_style kind }
{
    match kind {
        Kind::Ground => b"fill:#fff",
        Kind::Lane => b"fill:#f1f3f5",
        Kind::Guide => b"stroke:#d0d7de",
        Kind::Number => b"fill:#59636e;font-size:11px",
        Kind::Words => b"fill:#1f2328",
        Kind::Said => b"fill:#1f2328;font-weight:600",
        Kind::Done => b"fill:#fff;stroke:#6e7781",
        Kind::Waiting => b"fill:#fff;stroke:#9a6700",
        Kind::Failed => b"fill:#fff;stroke:#d1242f;stroke-width:3;stroke-dasharray:6 3",
        Kind::Refused => b"fill:#fff;stroke:#6e7781;stroke-dasharray:2 2",
        Kind::Bar => b"fill:url(#hatch);stroke:#9a6700",
        Kind::Stripes => b"stroke:#9a6700;stroke-width:2",
        Kind::Held => b"fill:#dafbe1;stroke:#1a7f37",
        Kind::Mode => b"fill:#1f2328;font-size:10px",
        Kind::Arrow => b"stroke:#0969da;stroke-width:2;marker-end:url(#head)",
        Kind::Head => b"fill:#0969da",
    }
}

// The style of a kind in a dark scheme, as far as it differs.
fn night_style(kind: Kind) -> &'static [u8]
    ensures { result.now ≡ night_style kind }
{
    match kind {
        Kind::Ground => b"fill:#0d1117",
        Kind::Lane => b"fill:#1a1f26",
        Kind::Guide => b"stroke:#3d444d",
        Kind::Number => b"fill:#9198a1",
        Kind::Words | Kind::Said | Kind::Mode => b"fill:#e6edf3",
        Kind::Done | Kind::Refused => b"fill:#0d1117;stroke:#818b98",
        Kind::Waiting => b"fill:#0d1117;stroke:#d29922",
        Kind::Failed => b"fill:#0d1117;stroke:#f85149",
        Kind::Bar | Kind::Stripes => b"stroke:#d29922",
        Kind::Held => b"fill:#12261e;stroke:#3fb950",
        Kind::Arrow => b"stroke:#58a6ff",
        Kind::Head => b"fill:#58a6ff",
    }
}

/// Returns the style of a picture, for light and dark schemes.
#[tactic(auto, unfolding(crate::specs::Kinds::style))]
pub(crate) fn style(alloc: Global) -> Result<Vec<u8>, AllocError>
    ensures { IfOk result (λ text. text.items ≡ style) }
{
    let mut text = Vec::new(alloc);
    push(&mut text, b"text{font:12px Menlo,Consolas,monospace}")?;
    push_day_rules(&mut text, &KINDS)?;
    push(&mut text, b"@media (prefers-color-scheme:dark){")?;
    push_night_rules(&mut text, &KINDS)?;
    push(&mut text, b"}")?;
    Ok(text)
}

// Appends the rules for a light scheme.
fn push_day_rules(out: &mut Vec<u8>, kinds: &[Kind]) -> Result<(), AllocError>
    ensures { OnOk result (out.new.items ≡ out.old.items ++ flat_map day_rule kinds.now) }
{
    for kind in kinds {
        push_rule(out, *kind, day_style(*kind))?;
    }
    Ok(())
}

// Appends the rules for a dark scheme.
fn push_night_rules(out: &mut Vec<u8>, kinds: &[Kind]) -> Result<(), AllocError>
    ensures { OnOk result (out.new.items ≡ out.old.items ++ flat_map night_rule kinds.now) }
{
    for kind in kinds {
        push_rule(out, *kind, night_style(*kind))?;
    }
    Ok(())
}

// Appends a rule.
#[tactic(auto, unfolding(crate::specs::Kinds::rule))]
fn push_rule(out: &mut Vec<u8>, kind: Kind, style: &[u8]) -> Result<(), AllocError>
    ensures { OnOk result (out.new.items ≡ out.old.items ++ rule kind style.now) }
{
    push(out, b".")?;
    push(out, kind_name(kind))?;
    push(out, b"{")?;
    push(out, style)?;
    push(out, b"}")
}
