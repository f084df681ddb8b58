//! The lock manager for C. `include/gaz_one.h` declares the functions, and lists what a C program must observe. Each function calls the one of its name in
//! [`mdl_c_calls`], or one of [`mdl_c_parts`] if it needs no manager, and has its contract.
#![tactic(auto)]

mod keys;
mod listings;
mod messages;
mod modes;
mod spaces;
mod tickets;
mod transactions;
mod waits;
