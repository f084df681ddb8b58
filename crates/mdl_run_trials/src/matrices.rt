//! The matrices as they are printed.
use mdl_lock::matrix_run;
use std::alloc::Global;
use std::mem::drop;

/// The matrices of MySQL 5.7, sql/mdl.cc.
pub(crate) const MATRICES: &str = "SCOPED GRANTED IX: S X
SCOPED GRANTED S: IX X
SCOPED GRANTED X: IX S X
SCOPED WAITING IX: S X
SCOPED WAITING S: X
SCOPED WAITING X: -
OBJECT GRANTED S: X
OBJECT GRANTED SH: X
OBJECT GRANTED SR: SNRW X
OBJECT GRANTED SW: SRO SNW SNRW X
OBJECT GRANTED SWLP: SRO SNW SNRW X
OBJECT GRANTED SU: SU SNW SNRW X
OBJECT GRANTED SRO: SW SWLP SNRW X
OBJECT GRANTED SNW: SW SWLP SU SNW SNRW X
OBJECT GRANTED SNRW: SR SW SWLP SU SRO SNW SNRW X
OBJECT GRANTED X: S SH SR SW SWLP SU SRO SNW SNRW X
OBJECT WAITING S: X
OBJECT WAITING SH: -
OBJECT WAITING SR: SNRW X
OBJECT WAITING SW: SNW SNRW X
OBJECT WAITING SWLP: SRO SNW SNRW X
OBJECT WAITING SU: X
OBJECT WAITING SRO: SW SNRW X
OBJECT WAITING SNW: X
OBJECT WAITING SNRW: X
OBJECT WAITING X: -
";

// Whether this is what is printed.
fn are_printed(alloc: Global, text: &str) -> bool {
    let mut written = Vec::new(alloc);
    let are_so = matrix_run(alloc, &mut written).is_ok() && written.as_slice() == text.as_bytes();
    drop(written);
    are_so
}

#[test]
fn the_matrices_are_printed(rt: HostRuntime) {
    assert!(rt; are_printed(rt.alloc(), MATRICES));
}
