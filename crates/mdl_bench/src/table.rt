//! The keys of tables.
use crate::failure::Failure;
use mdl_key::Key;
use std::alloc::Global;

/// The key of one of many tables.
pub fn table(alloc: Global, index: u16) -> Result<Key, Failure> {
    let name = format!(in alloc; "t{index}")?;
    let key = Key::table(alloc, "shop", name.as_str());
    drop(name);
    Ok(key?)
}
