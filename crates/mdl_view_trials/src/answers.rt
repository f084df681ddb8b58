//! Jams of a server, as its rows show them, with the whole answer to each.
use mdl_view_program::{Explained, Form, Question, view_rows};
use std::alloc::Global;
use std::test::Fail;

// The columns of the rows below: with the number of the connection, and without.
const COLUMNS: &[u8] =
    b"OBJECT_TYPE\tOBJECT_SCHEMA\tOBJECT_NAME\tLOCK_TYPE\tLOCK_STATUS\tOWNER_THREAD_ID\tPROCESSLIST_ID\tINFO\n";

const BARE_COLUMNS: &[u8] =
    b"OBJECT_TYPE\tOBJECT_SCHEMA\tOBJECT_NAME\tLOCK_TYPE\tLOCK_STATUS\tOWNER_THREAD_ID\n";

// Rows, and what is answered.
struct Jam {
    name: &'static str,
    columns: &'static [u8],
    rows: &'static [u8],
    explained: Explained,
    answer: &'static [u8],
}

const JAMS: &[Jam] = &[
    Jam {
        name: "nobody waits",
        columns: COLUMNS,
        rows: b"TABLE\tshop\torders\tSHARED_READ\tGRANTED\t16\t8\tNULL\n",
        explained: Explained::Fully,
        answer: b"No session waits.\n",
    },
    // The thread has the number 16, and the connection 8: `KILL 16` would end somebody else.
    Jam {
        name: "a function",
        columns: COLUMNS,
        rows: b"FUNCTION\tshop\tf\tSHARED\tGRANTED\t16\t8\tNULL
FUNCTION\tshop\tf\tEXCLUSIVE\tPENDING\t17\t9\tDROP FUNCTION f
",
        explained: Explained::Fully,
        answer: b"1 request waits. Ways out, the best first. Do one, and look again:
1. KILL 8;
   1 wait ends at once
   connection 8 (thread 16) holds S of FUNCTION shop.f
   connection 9 (thread 17) gets X of FUNCTION shop.f
      runs: DROP FUNCTION f
",
    },
    // Ending one of the two readers alone doesn't help the change.
    Jam {
        name: "two readers and a change",
        columns: COLUMNS,
        rows: b"TABLE\tshop\torders\tSHARED_READ\tGRANTED\t16\t8\tNULL
TABLE\tshop\torders\tSHARED_READ\tGRANTED\t17\t9\tSELECT\\nSLEEP(100)
TABLE\tshop\torders\tEXCLUSIVE\tPENDING\t18\t10\tTRUNCATE orders
",
        explained: Explained::Fully,
        answer: b"1 request waits.
So that connection 10 (thread 18) gets X of TABLE shop.orders,
   runs: TRUNCATE orders
do both of these:
   KILL 8;
   KILL 9;
      runs: SELECT SLEEP(100)
",
    },
    Jam {
        name: "rows without the numbers of connections",
        columns: BARE_COLUMNS,
        rows: b"TABLE\tshop\torders\tSHARED_READ\tGRANTED\t16
TABLE\tshop\torders\tEXCLUSIVE\tPENDING\t18
",
        explained: Explained::Fully,
        answer: b"The numbers below are of threads. KILL takes those of connections, which differ. To get both, run:
   mysql -B -e \"$(mdlview query)\" | mdlview
1 request waits. Ways out, the best first. Do one, and look again:
1. End thread 16. KILL takes the number that this returns:
   SELECT PROCESSLIST_ID FROM performance_schema.threads WHERE THREAD_ID = 16;
   1 wait ends at once
   thread 16 holds SR of TABLE shop.orders
   thread 18 gets X of TABLE shop.orders
",
    },
    Jam {
        name: "a thread of the server's own",
        columns: COLUMNS,
        rows: b"TABLE\tshop\torders\tSHARED_READ\tGRANTED\t16\tNULL\tNULL
TABLE\tshop\torders\tEXCLUSIVE\tPENDING\t18\t10\tNULL
",
        explained: Explained::Fully,
        answer: b"1 request waits. Ways out, the best first. Do one, and look again:
1. Thread 16 is the server's own: it has no connection, and KILL can't end it.
   1 wait ends at once
   thread 16 holds SR of TABLE shop.orders
   connection 10 (thread 18) gets X of TABLE shop.orders
",
    },
    Jam {
        name: "nobody holds the lock, and a row that waits isn't read",
        columns: COLUMNS,
        rows: b"TABLE\tshop\torders\tEXCLUSIVE\tPENDING\t18\t10\tNULL
FOREIGN KEY\tshop\tfk\tEXCLUSIVE\tPENDING\t19\t11\tNULL
",
        explained: Explained::Partly,
        answer: b"2 requests wait.
2 waits can't be explained from these rows:
   connection 10 (thread 18) waits for X of TABLE shop.orders, and no row shows who holds it
   Either the lock was taken while the instrument wait/lock/metadata/sql/mdl was off, or it is held by
   a prepared XA transaction, which has no client. These show the open transactions:
      SELECT trx_mysql_thread_id, trx_started FROM information_schema.INNODB_TRX ORDER BY 2;
      XA RECOVER;
   Begin with the oldest: KILL takes its trx_mysql_thread_id. For 0, XA ROLLBACK takes the xid.
   rows that wait and aren't read: FOREIGN KEY EXCLUSIVE 1
   Who holds those: the rows with their OBJECT_TYPE and OBJECT_NAME that are GRANTED. To see all rows:
      SELECT * FROM performance_schema.metadata_locks;
1 row left out: FOREIGN KEY EXCLUSIVE 1
",
    },
];

// Whether the right answer is written for a jam, and whether it says rightly that all waits are explained.
fn is_answered(alloc: Global, jam: &Jam) -> Result<bool, Fail> {
    let mut text = Vec::from_slice(alloc, jam.columns)?;
    text.extend_from_slice(jam.rows)?;
    let mut input = text.as_slice();
    let mut output = Vec::new(alloc);
    match view_rows(alloc, Question::Why(Form::Text), &mut input, &mut output) {
        Ok(explained) => Ok(explained == jam.explained && output.as_slice() == jam.answer),
        Err(_) => Ok(false),
    }
}

#[test]
fn jams_are_answered(rt: HostRuntime) -> Result<(), Fail> {
    for jam in JAMS {
        let is_answered = is_answered(rt.alloc(), jam)?;
        assert!(rt; is_answered, "{}", jam.name);
    }
    Ok(())
}
