//! `mdl_plans`: what a statement does, step by step.
use mdl_plans::{Standing, Step, plan_of};
use mdl_syntax::Statement;

#[test]
fn a_statement_has_a_plan(rt: HostRuntime) {
    let mut standing = Standing {
        has_locked_tables: false,
        has_read_lock: false,
    };
    let begin = plan_of(standing, &Statement::Begin);
    assert!(rt; matches!(begin, [Step::Commit, Step::UnlockTables, Step::Open]));
    // A session that has the global read lock asks for it once more, and gets no locks.
    standing.has_read_lock = true;
    let flush = plan_of(standing, &Statement::FlushTablesWithReadLock);
    assert!(rt; matches!(flush, [Step::NoLockedTables, Step::Commit]));
}
