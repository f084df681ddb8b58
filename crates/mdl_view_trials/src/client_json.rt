//! Tables in JSON, as `mdl_client_table` reads them.
use mdl_client_table::{JsonError, JsonFault, Row, Table, TableError, read_table};
use std::alloc::Global;

// The same rows in each form in which clients print JSON: keys in another order and another case, one that is missing, numbers, escapes, and the
// text `NULL`.
const FORMS: &[&[u8]] = &[
    b"[{\"Id\": 8, \"USER\": \"a\\\"\\u00e9\\ud83d\\ude00\\n\", \"INFO\": null},
 {\"INFO\": \"NULL\", \"ID\": -1.5e3}]",
    b"{\"Id\":8,\"USER\":\"a\\\"\\u00E9\\uD83D\\uDE00\\n\",\"INFO\":null}
{\"id\":-1.5e3,\"user\":null,\"info\":\"NULL\"}
",
    b"\xef\xbb\xbf{
    \"Id\": 8,
    \"USER\": \"a\\\"\xc3\xa9\xf0\x9f\x98\x80\\n\",
    \"INFO\": \"\"
}\r\n{\r\n    \"INFO\": \"NULL\",
    \"Id\": -1.5e3
}",
];

// Texts, and where and why they are refused.
const REFUSED: &[(&[u8], u64, u64, JsonError)] = &[
    (b"[", 1, 1, JsonError::TextEnds),
    (b"\n [{\"a\": 1}", 2, 10, JsonError::TextEnds),
    (b"[{\"a\": 1},]", 1, 11, JsonError::NotARow),
    (b"[7]", 1, 2, JsonError::NotARow),
    (b"[[{\"a\": 1}]]", 1, 2, JsonError::NotARow),
    (b"{\"a\": 1}\n2 rows in set\n", 2, 1, JsonError::NotARow),
    (b"[{\"a\": 1}] [", 1, 12, JsonError::Unexpected),
    (b"[{\"a\" 1}]", 1, 7, JsonError::Unexpected),
    (b"[{\"a\": 1 \"b\": 2}]", 1, 10, JsonError::Unexpected),
    (b"[{\"a\": 1,}]", 1, 10, JsonError::Unexpected),
    (b"[{1: 1}]", 1, 3, JsonError::Unexpected),
    (b"[{\"a\": \"x", 1, 8, JsonError::BadCell),
    (b"[{\"a\": \"x\n\"}]", 1, 8, JsonError::BadCell),
    (b"[{\"a\": \"\\x\"}]", 1, 8, JsonError::BadCell),
    (b"[{\"a\": \"\\ud83d\"}]", 1, 8, JsonError::BadCell),
    (b"[{\"a\": \"\xe9\"}]", 1, 8, JsonError::BadCell),
    (b"[{\"a\": 01}]", 1, 8, JsonError::BadCell),
    (b"[{\"a\": NULL}]", 1, 8, JsonError::BadCell),
    (b"[{\"a\": true}]", 1, 8, JsonError::NotAValue),
    (b"[{\"a\": [1]}]", 1, 8, JsonError::NotAValue),
    (b"{\"rows\": [{\"a\": 1}]}", 1, 10, JsonError::NotAValue),
    (b"[{\"a\": 1, \"A\": 2}]", 1, 11, JsonError::KeyTwice),
    (b"[{\"a\": 1},\n {\"b\": 1}]", 2, 3, JsonError::NewKey),
];

// A row is fine.
const SHORT: &[u8] = b" [{\"a\": \"\\u00e9\", \"b\": null},
 {\"b\": -1.5, \"a\": \"x\"}]";

// Whether a text is refused in JSON, and nothing else happens.
fn is_refused(alloc: Global, text: &[u8]) -> bool {
    matches!(read_table(alloc, text), Err(TableError::Json(_)))
}

// Whether a row is on this line and has these three fields.
fn is_row(row: &Row, line: u64, fields: [&[u8]; 3]) -> bool {
    let [id, user, info] = fields;
    row.line() == line
        && row.count() == 3
        && row.field(0) == id
        && row.field(1) == user
        && row.field(2) == info
}

// Whether a table has the rows of the forms.
fn is_read_so(table: &Table) -> bool {
    match (table.names(), table.rows()) {
        ([id, _, _], [one, two]) => id.as_slice() == b"Id".as_slice()
            && is_row(one, 1, [b"8", b"a\"\xc3\xa9\xf0\x9f\x98\x80\n", b""])
            && two.line() > 1
            && is_row(two, two.line(), [b"-1.5e3", b"", b"NULL"]),
        _ => false,
    }
}

// Whether these rows are read from a text.
fn is_form(alloc: Global, text: &[u8]) -> bool {
    match read_table(alloc, text) {
        Ok(table) => is_read_so(&table),
        Err(_) => false,
    }
}

#[test]
fn json_is_read(rt: HostRuntime) {
    for text in FORMS {
        assert!(rt; is_form(rt.alloc(), text));
    }
}

// Whether a text is refused for this.
fn is_refused_for(alloc: Global, text: &[u8], fault: JsonFault) -> bool {
    match read_table(alloc, text) {
        Ok(_) => false,
        Err(error) => error == TableError::Json(fault),
    }
}

#[test]
fn json_is_refused(rt: HostRuntime) {
    for (text, line, column, error) in REFUSED {
        let fault = JsonFault {
            line: *line,
            column: *column,
            error: *error,
        };
        let is_refused = is_refused_for(rt.alloc(), text, fault);
        assert!(rt; is_refused, "{line} {column}");
    }
}

// Whether a text of two rows is read.
fn has_two_rows(alloc: Global, text: &[u8]) -> bool {
    match read_table(alloc, text) {
        Ok(table) => table.rows().len() == 2,
        Err(_) => false,
    }
}

#[test]
fn json_cut_anywhere_is_refused(rt: HostRuntime) {
    for end in 2..SHORT.len() {
        let is_refused = is_refused(rt.alloc(), &SHORT[..end]);
        assert!(rt; is_refused, "{end}");
    }
    assert!(rt; has_two_rows(rt.alloc(), SHORT));
}
