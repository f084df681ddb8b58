//! What is said of locks that are taken for upgraded.
ghost use Rattle.std.specs.Prelude.{◌≡◌, ◌++◌, ◌-◌, flat_map, length, take, OnOk};
ghost use Rattle.mdl_view_text.specs.Upgraded.{upgrade_end, upgrade_line, upgrade_start, upgrades_comment, upgrades_head, upgrades_text};
ghost use Rattle.mdl_view_text.specs.Why.{most_lines};

use crate::layout::push_line_with;
use crate::names::Names;
use crate::text::{push_mode, push_numbered, push_session};
use crate::why::{MOST_LINES, push_and_more, push_mode_of};
use mdl_lines::push;
use mdl_view::Upgrade;
use std::alloc::{AllocError, Global};

/// Appends a line for each of the first eight locks that are taken for upgraded, under a line that says why, and how many more there are. If
/// there are none, nothing is appended.
pub fn add_upgrades(
    out: &mut Vec<u8>,
    alloc: Global,
    names: &Names,
    upgrades: &[Upgrade],
) -> Result<(), AllocError>
    ensures { OnOk result (out.new.items ≡ out.old.items ++ upgrades_text names.now upgrades.now) }
{
    push_head(out, upgrades.len())?;
    push_upgrades(out, alloc, names, first_upgrades(upgrades))?;
    push_and_more(out, upgrades.len().saturating_sub(MOST_LINES))
}

/// Appends a comment of DOT that says how many locks are taken for upgraded. If there are none, nothing is appended.
pub fn add_upgrades_comment(out: &mut Vec<u8>, count: usize) -> Result<(), AllocError>
    ensures { OnOk result (out.new.items ≡ out.old.items ++ upgrades_comment count) }
{
    if count == 0 {
        return Ok(());
    }
    push_numbered(
        out,
        b"// Rows show no upgrades. Locks taken for upgraded: ",
        count as u64,
        b"\n",
    )
}

// Appends the line that says why, if there is a lock to name.
fn push_head(out: &mut Vec<u8>, count: usize) -> Result<(), AllocError>
    ensures { OnOk result (out.new.items ≡ out.old.items ++ upgrades_head count) }
{
    if count == 0 {
        return Ok(());
    }
    push(
        out,
        b"Inferred, because rows show the mode that a lock was taken with, and no upgrade:\n",
    )
}

// The first locks, which are named.
fn first_upgrades(upgrades: &[Upgrade]) -> &[Upgrade]
    ensures { result.now ≡ take most_lines upgrades.now }
{
    if upgrades.len() <= MOST_LINES {
        return upgrades;
    }
    &upgrades[..MOST_LINES]
}

// Appends a line for each of these locks.
fn push_upgrades(
    out: &mut Vec<u8>,
    alloc: Global,
    names: &Names,
    upgrades: &[Upgrade],
) -> Result<(), AllocError>
    ensures { OnOk result (out.new.items ≡ out.old.items ++ flat_map (upgrade_line names.now) upgrades.now) }
{
    for upgrade in upgrades {
        push_upgrade(out, alloc, names, *upgrade)?;
    }
    Ok(())
}

// Appends the line of a lock.
fn push_upgrade(
    out: &mut Vec<u8>,
    alloc: Global,
    names: &Names,
    upgrade: Upgrade,
) -> Result<(), AllocError>
    ensures { OnOk result (out.new.items ≡ out.old.items ++ upgrade_line names.now upgrade) }
{
    let mut start = Vec::new(alloc);
    push_start(&mut start, names, upgrade)?;
    let mut end = Vec::new(alloc);
    push_end(&mut end, upgrade)?;
    push_line_with(out, alloc, &start, names.lock(upgrade.lock), &end)
}

// Appends what comes before the lock's name.
fn push_start(out: &mut Vec<u8>, names: &Names, upgrade: Upgrade) -> Result<(), AllocError>
    ensures { OnOk result (out.new.items ≡ out.old.items ++ upgrade_start names.now upgrade) }
{
    push(out, b"   ")?;
    push_session(out, names, upgrade.ticket.session)?;
    push(out, b" has ")?;
    push_mode_of(out, upgrade.now)
}

// Appends what comes after it.
fn push_end(out: &mut Vec<u8>, upgrade: Upgrade) -> Result<(), AllocError>
    ensures { OnOk result (out.new.items ≡ out.old.items ++ upgrade_end upgrade) }
{
    push(out, b" by now, not ")?;
    push_mode(out, upgrade.ticket.mode)
}
