//! `mdl_calls`: a call that is refused.
use mdl_calls::SpaceError;
use mdl_defs::{ChangeError, DefError};

#[test]
fn a_refused_change_refuses_the_call(rt: HostRuntime) {
    // A table that exists can't be created, and the call
    // that was to create it is refused for that.
    let cause = SpaceError::from(ChangeError::Def(DefError::Exists));
    assert!(rt; cause == SpaceError::Def(DefError::Exists));
}
