//! `mdl_view`: a reader blocks a change, and the change blocks who comes later.
use mdl_key::Mode;
use mdl_view::{Act, Lock, LockKind, LockMode, Ticket, at_once, blockings};
use std::test::Fail;

#[test]
fn a_reader_blocks_a_change(rt: HostRuntime) -> Result<(), Fail> {
    let alloc = rt.alloc();
    let reader = Ticket {
        number: 1,
        session: 1,
        mode: LockMode::Mdl(Mode::SR),
        of_statement: false,
    };
    let change = Ticket {
        session: 2,
        mode: LockMode::Mdl(Mode::X),
        of_statement: true,
        ..reader
    };
    let later = Ticket {
        session: 3,
        of_statement: true,
        ..reader
    };
    let mut lock = Lock::new(alloc, LockKind::Object);
    lock.add_granted(reader)?;
    lock.add_waiting(change)?;
    lock.add_waiting(later)?;
    let mut locks = Vec::new(alloc);
    locks.push(lock)?;
    // The reader blocks the change, and the change blocks the later reader.
    assert_eq!(rt; blockings(alloc, &locks)?.len(), 2);
    // If the statement of the change is ended, the later reader is granted at once.
    let granted = at_once(alloc, &locks, Act::KillQuery(2))?;
    assert_eq!(rt; granted[0].ticket, later);
    Ok(())
}
