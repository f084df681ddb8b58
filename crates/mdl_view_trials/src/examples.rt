//! The examples that the libraries show.
mod client_table;
mod lock_rows;
mod page;
mod picture;
mod timeline;
mod view;
mod view_program;
mod view_text;
