//! Waits, polled until they are settled.
ghost use Rattle.mdl_calls.specs.Words.{Runs};
ghost use Rattle.mdl_work.specs.Works.{waiting_out};

use mdl_space::{LockSpace, Poll};
use std::thread;

/// Looks at the session's wait until it is settled, at most `patience` times. If it still isn't settled, makes it time out. Takes
/// no memory.
pub(crate) fn wait_out<S: LockSpace>(space: &mut S, who: u16, patience: u32)
    requires { S.speaks_for space.old who }
    ensures { Runs S.joins space.old (waiting_out who patience) tt space.new }
{
    for _poll in 0..patience {
        match space.poll_wait(who) {
            Ok(Poll::Pending) => thread::yield_now(),
            Ok(Poll::Settled(_how)) => return,
            Err(_refusal) => return,
        }
    }
    let _settled = space.settle_timeout(who);
}
