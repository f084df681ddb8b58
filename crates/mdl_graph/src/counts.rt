//! A bound on the numbers of sessions.
ghost use Rattle.std.specs.Prelude.{◌≤◌};
ghost use Rattle.mdl_graph.specs.Searches.{AreBelow, AreRows};

/// Returns one more than the greatest number of a session that waits in a row or blocks one.
pub(crate) fn session_count(waits: &[(usize, u16)], stands: &[(u16, usize)]) -> usize
    ensures waits { AreBelow result waits.now }
    ensures stands { AreRows result stands.now }
    ensures few { result ≤ 65536 }
{
    let mut count: usize = 0;
    for wait in waits {
        count = count.max(usize::from(wait.1) + 1);
    }
    for stand in stands {
        count = count.max(usize::from(stand.0) + 1);
    }
    count
}
