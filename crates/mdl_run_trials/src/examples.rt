//! Examples of crates, which the heads of their `src/lib.rt` show, too.
mod explain;
mod lock;
mod plans;
mod program;
mod rows;
mod script;
mod script_laws;
mod shared;
mod steps;
mod stmt;
mod visits;
mod work;
