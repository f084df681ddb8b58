//! Scripts for C: bytes in, bytes out. `include/gaz_text.h` has the declarations for C, and what C must provide.
//!
//! Each function plays a script as the program `mdlsim` does, and writes the answers if they fit. Its contract says by
//! [`Plays`](../specs/Playing) which answers these are, and what C gets otherwise.
#![tactic(auto)]

mod codes;
mod scripts;
mod telling;
