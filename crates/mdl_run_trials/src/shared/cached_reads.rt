//! A session reads definitions with a cache of its own, and looks in it without the latch, while another session makes changes. All is done on
//! one thread.
use crate::shared::acts::{Act, Edit, Lock, Reply};
use crate::shared::readers::{Found, Step, Story, are_right};
use mdl_key::Mode;
use std::test::Fail;

// A kept definition is read as long as its version is current. Another version is read anew, and kept, too. Nothing is kept if there is no
// definition.
const WHILE_IT_STANDS: &[Step] = &[
    Step::LookUp(Lock::Orders, 1),
    Step::Beside(Act::Resolve(Lock::Orders), Reply::Place(1)),
    Step::Take(1, 1),
    Step::Read(1, &[], 0, Found::Nothing),
    Step::Read(9, &[], 0, Found::Refused),
    Step::Keeps(0),
    Step::GiveUp(1),
    Step::Beside(Act::Try(1, Mode::X), Reply::Granted(1)),
    Step::Beside(Act::Change(1, Edit::CreateTable("x")), Reply::Version(1)),
    Step::Beside(Act::Release(1), Reply::Done),
    Step::Take(1, 2),
    Step::Read(2, &["x"], 1, Found::Named),
    Step::Read(2, &["x"], 1, Found::Named),
    Step::Keeps(1),
    Step::GiveUp(2),
    Step::Beside(Act::Try(1, Mode::X), Reply::Granted(2)),
    Step::Beside(Act::Change(2, Edit::AddColumn("y")), Reply::Version(2)),
    Step::Beside(Act::Release(2), Reply::Done),
    Step::Take(1, 3),
    Step::Read(3, &["x", "y"], 2, Found::Named),
    Step::Keeps(2),
];

// What was read under a ticket is found by each look under it. A look under a ticket that isn't held is refused.
const LOOKS: &[Step] = &[
    Step::LookUp(Lock::Orders, 1),
    Step::Beside(Act::Resolve(Lock::Orders), Reply::Place(1)),
    Step::Beside(Act::Try(1, Mode::X), Reply::Granted(1)),
    Step::Beside(Act::Change(1, Edit::CreateTable("x")), Reply::Version(1)),
    Step::Beside(Act::Release(1), Reply::Done),
    Step::Take(1, 1),
    Step::Read(1, &["x"], 1, Found::Named),
    Step::Look(1, &["x"], Found::Named),
    Step::Look(2, &["x"], Found::Refused),
    Step::Look(1, &["x"], Found::Named),
    Step::Look(1, &["x"], Found::Named),
];

// After each change a look finds nothing that is current, a read finds the new definition, and then a look finds it, too.
const ANEW: &[Step] = &[
    Step::Beside(Act::Resolve(Lock::Orders), Reply::Place(1)),
    Step::LookUp(Lock::Orders, 1),
    Step::Beside(Act::Try(1, Mode::X), Reply::Granted(1)),
    Step::Beside(Act::Change(1, Edit::CreateTable("x")), Reply::Version(1)),
    Step::Beside(Act::Release(1), Reply::Done),
    Step::TakeFast(1, 1),
    Step::Look(1, &["x"], Found::Stale),
    Step::Read(1, &["x"], 1, Found::Named),
    Step::Look(1, &["x"], Found::Named),
    Step::GiveUp(1),
    Step::Beside(Act::Try(1, Mode::X), Reply::Granted(2)),
    Step::Beside(Act::Change(2, Edit::AddColumn("y")), Reply::Version(2)),
    Step::Beside(Act::Release(2), Reply::Done),
    Step::TakeFast(1, 2),
    Step::Look(2, &["x", "y"], Found::Stale),
    Step::Read(2, &["x", "y"], 2, Found::Named),
    Step::Look(2, &["x", "y"], Found::Named),
    Step::Keeps(2),
];

// A cache of two drops the definition that is unused for longest. A look that finds a definition counts as a use.
const THREE_TABLES: &[Step] = &[
    Step::Beside(Act::Resolve(Lock::Orders), Reply::Place(1)),
    Step::Beside(Act::Resolve(Lock::Sales), Reply::Place(2)),
    Step::Beside(Act::Resolve(Lock::Goods), Reply::Place(3)),
    Step::LookUp(Lock::Orders, 1),
    Step::LookUp(Lock::Sales, 2),
    Step::LookUp(Lock::Goods, 3),
    Step::Beside(Act::Try(1, Mode::X), Reply::Granted(1)),
    Step::Beside(Act::Change(1, Edit::CreateTable("x")), Reply::Version(1)),
    Step::Beside(Act::Release(1), Reply::Done),
    Step::Beside(Act::Try(2, Mode::X), Reply::Granted(2)),
    Step::Beside(Act::Change(2, Edit::CreateTable("y")), Reply::Version(1)),
    Step::Beside(Act::Release(2), Reply::Done),
    Step::Beside(Act::Try(3, Mode::X), Reply::Granted(3)),
    Step::Beside(Act::Change(3, Edit::CreateTable("z")), Reply::Version(1)),
    Step::Beside(Act::Release(3), Reply::Done),
    Step::TakeFast(1, 1),
    Step::TakeFast(2, 2),
    Step::TakeFast(3, 3),
    Step::Read(1, &["x"], 1, Found::Named),
    Step::Read(2, &["y"], 1, Found::Named),
    Step::Look(1, &["x"], Found::Named),
    Step::Read(3, &["z"], 1, Found::Named),
    Step::Look(2, &["y"], Found::Stale),
    Step::Look(1, &["x"], Found::Named),
];

const STORIES: &[Story] = &[
    (
        "what is kept is read while its version stands",
        2,
        WHILE_IT_STANDS,
        (3, &["x", "y"]),
    ),
    ("a look needs what was read", 1, LOOKS, (1, &["x"])),
    (
        "a change is read once and found from then on",
        2,
        ANEW,
        (2, &["x", "y"]),
    ),
    (
        "what a look finds stays longer",
        2,
        THREE_TABLES,
        (1, &["x"]),
    ),
];

#[test]
fn sessions_read_with_caches(rt: HostRuntime) -> Result<(), Fail> {
    for story in STORIES {
        are_right(&rt, *story)?;
    }
    Ok(())
}
