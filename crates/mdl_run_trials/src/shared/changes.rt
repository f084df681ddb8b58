//! Sessions change the definitions of keys, and read their versions.
use crate::shared::acts::{Act, Edit, Lock, Memory, Reply};
use crate::shared::rows::{Case, Row, are_right};
use mdl_calls::SpaceError;
use mdl_defs::DefError;
use mdl_key::Mode;
use std::test::Fail;

// Each change raises the version by one, and all later reads see it.
const CHANGES: &[Row] = &[
    (1, Act::Resolve(Lock::Shop), Reply::Place(1)),
    (2, Act::Resolve(Lock::Shop), Reply::Place(1)),
    (1, Act::Try(1, Mode::X), Reply::Granted(1)),
    (1, Act::Change(1, Edit::CreateSchema), Reply::Version(1)),
    (1, Act::Read(1), Reply::Schema(1)),
    (1, Act::Change(1, Edit::Drop), Reply::Version(2)),
    (1, Act::Change(1, Edit::PutSchema), Reply::Version(3)),
    (1, Act::Release(1), Reply::Done),
    (2, Act::Try(1, Mode::S), Reply::Granted(1)),
    (2, Act::Read(1), Reply::Schema(3)),
    (2, Act::Release(1), Reply::Done),
];

const NOT_HELD: Reply = Reply::Refused(SpaceError::NotHeld);

const NOT_EXCLUSIVE: Reply = Reply::Refused(SpaceError::NotExclusive);

const WRONG_KIND: Reply = Reply::Refused(SpaceError::WrongKind);

const MISSING: Reply = Reply::Refused(SpaceError::Def(DefError::Missing));

const EXISTS: Reply = Reply::Refused(SpaceError::Def(DefError::Exists));

// A session can change a definition only under an exclusive ticket, and only if the change suits the key and its definition.
const REFUSED: &[Row] = &[
    (1, Act::Resolve(Lock::Shop), Reply::Place(1)),
    (1, Act::Resolve(Lock::Sales), Reply::Place(2)),
    (1, Act::Change(1, Edit::CreateSchema), NOT_HELD),
    (1, Act::Try(2, Mode::SNRW), Reply::Granted(1)),
    (1, Act::Change(1, Edit::CreateSchema), NOT_EXCLUSIVE),
    (1, Act::Try(2, Mode::X), Reply::Granted(2)),
    (1, Act::Change(2, Edit::CreateSchema), WRONG_KIND),
    (1, Act::Change(2, Edit::Drop), MISSING),
    (1, Act::Read(2), Reply::New),
    (1, Act::Try(1, Mode::X), Reply::Granted(3)),
    (1, Act::Change(3, Edit::CreateSchema), Reply::Version(1)),
    (1, Act::Change(3, Edit::CreateSchema), EXISTS),
    (1, Act::Read(3), Reply::Schema(1)),
    (1, Act::Release(1), Reply::Done),
    (1, Act::Release(2), Reply::Done),
    (1, Act::Release(3), Reply::Done),
];

// After the last version there is none.
const ALL_VERSIONS: &[Row] = &[
    (1, Act::Resolve(Lock::Shop), Reply::Place(1)),
    (1, Act::Try(1, Mode::X), Reply::Granted(1)),
    (1, Act::PutOften(1, 1_000_000), Reply::Version(1_000_000)),
    (
        1,
        Act::Change(1, Edit::PutSchema),
        Reply::Refused(SpaceError::VersionFull),
    ),
    (1, Act::Release(1), Reply::Done),
];

// The version counts the changes of another session, whether or not a ticket is held.
const VERSIONS: &[Row] = &[
    (1, Act::Resolve(Lock::Orders), Reply::Place(1)),
    (1, Act::Version(1), Reply::Version(0)),
    (1, Act::Try(1, Mode::SR), Reply::Granted(1)),
    (1, Act::Version(1), Reply::Version(0)),
    (1, Act::Release(1), Reply::Done),
    (2, Act::Resolve(Lock::Orders), Reply::Place(1)),
    (2, Act::Try(1, Mode::X), Reply::Granted(1)),
    (2, Act::Change(1, Edit::CreateTable("x")), Reply::Version(1)),
    (2, Act::Release(1), Reply::Done),
    (1, Act::Version(1), Reply::Version(1)),
    (1, Act::Try(1, Mode::SR), Reply::Granted(2)),
    (1, Act::Version(1), Reply::Version(1)),
    (1, Act::Release(2), Reply::Done),
    (2, Act::Try(1, Mode::X), Reply::Granted(2)),
    (2, Act::Change(2, Edit::AddColumn("y")), Reply::Version(2)),
    (2, Act::Release(2), Reply::Done),
    (1, Act::Version(1), Reply::Version(2)),
    (1, Act::Try(1, Mode::SR), Reply::Granted(3)),
    (1, Act::Version(1), Reply::Version(2)),
    (1, Act::Release(3), Reply::Done),
];

const CASES: &[Case] = &[
    ("a change is one version more", 1, CHANGES),
    ("a change that cannot be made is refused", 2, REFUSED),
    ("versions are read without a ticket", 4, VERSIONS),
];

#[test]
fn sessions_change_what_stands(rt: HostRuntime) -> Result<(), Fail> {
    are_right(&rt, Memory::Ample, CASES)
}

// A million changes take some seconds, so this has a test of its own.
#[test]
fn versions_run_out(rt: HostRuntime) -> Result<(), Fail> {
    are_right(
        &rt,
        Memory::Ample,
        &[("the versions run out", 1, ALL_VERSIONS)],
    )
}
