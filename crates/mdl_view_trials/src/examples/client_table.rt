//! `mdl_client_table`: a table in a box, below a prompt.
use mdl_client_table::{Form, read_table};
use std::test::Fail;

#[test]
fn a_table_in_a_box(rt: HostRuntime) -> Result<(), Fail> {
    let alloc = rt.alloc();
    let text = b"mysql> SELECT ID, USER FROM information_schema.PROCESSLIST;
+------+------+
| ID   | USER |
+------+------+
|    8 | app  |
+------+------+
1 row in set (0.00 sec)
";
    let table = read_table(alloc, text)?;
    for row in table.rows() {
        assert_eq!(rt; row.line(), 5);
        assert_eq!(rt; row.field(1), b"app".as_slice());
    }
    Ok(())
}

#[test]
fn where_a_table_begins(rt: HostRuntime) {
    assert_eq!(rt; Form::begun_by(b"mysql> SELECT a, b;"), None);
    assert_eq!(rt; Form::begun_by(b"a,b\tc"), Some(Form::Commas));
    assert_eq!(rt; Form::begun_by(b"  +---+"), Some(Form::Boxes));
}
