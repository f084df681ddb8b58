//! `mdl_lock_rows`: a reader holds what a change waits for.
use mdl_key::Mode;
use mdl_lock_rows::{LockRowsError, RowError, read_lock_rows};
use mdl_view::LockMode;
use std::test::Fail;

#[test]
fn a_change_waits_for_a_reader(rt: HostRuntime) -> Result<(), Fail> {
    let alloc = rt.alloc();
    let text =
        b"OBJECT_TYPE\tOBJECT_SCHEMA\tOBJECT_NAME\tLOCK_TYPE\tLOCK_STATUS\tOWNER_THREAD_ID\tPROCESSLIST_ID
TABLE\tshop\torders\tSHARED_READ\tGRANTED\t48213\t8
TABLE\tshop\torders\tEXCLUSIVE\tPENDING\t48300\t15
";
    let found = read_lock_rows(alloc, text)?;
    for (key, lock) in found.keys.iter().zip(&found.locks) {
        assert_eq!(rt; key.name(), b"orders".as_slice());
        // Thread 48213 is session 1, and thread 48300 is session 2. Their tickets have the numbers of the lines.
        for held in lock.granted() {
            assert_eq!(rt;
                (held.session, held.number, held.mode),
                (1, 2, LockMode::Mdl(Mode::SR))
            );
        }
        for wait in lock.waiting() {
            assert_eq!(rt;
                (wait.session, wait.number, wait.mode),
                (2, 3, LockMode::Mdl(Mode::X))
            );
        }
    }
    // The connection of session 1, which `KILL` takes, is another number than its thread.
    assert_eq!(rt;
        found
            .owners
            .iter()
            .next()
            .and_then(|owner| owner.connection()),
        Some(8)
    );
    // A row of too few fields is refused by the number of its line and of the field.
    let refused = read_lock_rows(alloc, &text[..text.len() - 4]);
    assert_eq!(rt;
        refused.err(),
        Some(LockRowsError::Refused(3, RowError::MissingField(7)))
    );
    Ok(())
}
