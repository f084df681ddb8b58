//! Examples of crates, which the heads of their `src/lib.rt` show, too.
mod book;
mod calls;
mod context;
mod cores;
mod defs;
mod graph;
mod key;
mod lines;
mod space;
mod syntax;
mod system;
mod word;
mod words;
