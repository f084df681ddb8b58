//! `mdl_defs`: a table that is created and altered.
use mdl_defs::{Change, ChangeError, Column, Columns, DefError, Definition, VersionedDefinition};
use mdl_key::Namespace;
use std::test::Fail;

#[test]
fn a_table_is_created_and_altered(rt: HostRuntime) -> Result<(), Fail> {
    let alloc = rt.alloc();
    let note = Column::new(alloc, "note")?;
    let mut columns = Columns::new(alloc);
    columns.push(Column::new(alloc, "id")?)?;
    let create = Change::Create(Definition::Table(columns));
    let add = Change::AddColumn(note);
    let mut table = VersionedDefinition::new();
    assert!(rt; table.change(alloc, Namespace::Table, &create) == Ok(1)); // the table's version
    assert!(rt; table.change(alloc, Namespace::Table, &add) == Ok(2));
    // The table has the column already, and nothing changes.
    let refused = table.change(alloc, Namespace::Table, &add);
    assert!(rt; refused == Err(ChangeError::Def(DefError::DuplicateColumn)) && table.version == 2);
    Ok(())
}
