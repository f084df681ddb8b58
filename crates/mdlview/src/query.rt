//! The query for the rows of a server.
ghost use Rattle.std.specs.Prelude.{◌≡◌};
ghost use Rattle.mdlview.specs.Queries.{query_text};

use crate::asked::Server;

// MySQL and MariaDB take the same query.
const LOCKS_QUERY: &[u8] = b"SELECT m.OBJECT_TYPE, m.OBJECT_SCHEMA, m.OBJECT_NAME,
  m.LOCK_TYPE, m.LOCK_DURATION, m.LOCK_STATUS, m.OWNER_THREAD_ID,
  t.PROCESSLIST_ID, t.PROCESSLIST_USER AS USER,
  t.PROCESSLIST_HOST AS HOST, t.PROCESSLIST_COMMAND AS COMMAND,
  t.PROCESSLIST_TIME AS TIME, LEFT(t.PROCESSLIST_INFO, 100) AS INFO,
  x.TRX_STARTED
FROM performance_schema.metadata_locks m
LEFT JOIN performance_schema.threads t
  ON t.THREAD_ID = m.OWNER_THREAD_ID
LEFT JOIN (
  SELECT trx_mysql_thread_id AS ID, MIN(trx_started) AS TRX_STARTED
  FROM information_schema.INNODB_TRX
  WHERE trx_mysql_thread_id > 0
  GROUP BY trx_mysql_thread_id) x
  ON x.ID = t.PROCESSLIST_ID
WHERE t.PROCESSLIST_ID IS NULL OR t.PROCESSLIST_ID <> CONNECTION_ID()
ORDER BY t.PROCESSLIST_TIME DESC, m.OBJECT_INSTANCE_BEGIN
";

/// The query for the rows of a server of this kind.
pub fn query_of(server: Server) -> &'static [u8]
    ensures { result.now ≡ query_text server }
{
    match server {
        Server::MySql => LOCKS_QUERY,
        Server::MariaDb => LOCKS_QUERY,
    }
}
