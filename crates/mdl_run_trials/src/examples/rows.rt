//! `mdl_rows`: why a statement failed.
use mdl_rows::{ErrorNumber, Reply};

#[test]
fn a_failed_statement_has_a_number(rt: HostRuntime) {
    let reply = Reply::Error(ErrorNumber::NoSuchTable);
    assert!(rt; matches!(&reply, Reply::Error(error) if error.number() == 1146));
}
