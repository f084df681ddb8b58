//! `mdl_view_text`: what to type so that a change goes on.
use mdl_lock_rows::read_lock_rows;
use mdl_view_text::{Names, find, key_text, why_text};
use std::test::Fail;

#[test]
fn a_reader_stops_a_change(rt: HostRuntime) -> Result<(), Fail> {
    let alloc = rt.alloc();
    let rows =
        b"OBJECT_TYPE\tOBJECT_SCHEMA\tOBJECT_NAME\tLOCK_TYPE\tLOCK_STATUS\tOWNER_THREAD_ID\tPROCESSLIST_ID\tUSER\tHOST\tCOMMAND\tTIME
TABLE\tshop\torders\tSHARED_READ\tGRANTED\t48\t8\tapp\tweb3\tSleep\t412
TABLE\tshop\torders\tEXCLUSIVE\tPENDING\t52\t15\troot\tlocalhost\tQuery\t300
";
    let found = read_lock_rows(alloc, rows)?;
    let mut names = Names::new(alloc, found.owners);
    for key in &found.keys {
        names.add_lock(key_text(alloc, key.object_type(), key.schema(), key.name())?)?;
    }
    let text = why_text(alloc, &names, &find(alloc, &found.locks)?, &found.left_out)?;
    assert_eq!(rt;
        text.as_slice(),
        b"1 request waits. Ways out, the best first. Do one, and look again:
1. KILL 8;  -- app@web3, Sleep 412 s
   1 wait ends at once
   connection 8 (thread 48) holds SR of TABLE shop.orders
   connection 15 (thread 52) gets X of TABLE shop.orders
"
            .as_slice()
    );
    Ok(())
}
