//! `mdl_threaded_server_example` uses the library as a server with a thread for each session would. It reads all requests from
//! standard input, one on each line: the number of a session and a statement, as `2 SELECT shop.orders`. Each session answers its
//! requests on a thread of its own, and waits there whatever they wait for. The answers are printed session by session.
//!
//! Of the repository it lists `mdl` alone. Begin with `session.rt`, whose contracts cite the library's definitions through `mdl`. `work.rt`
//! has a statement parsed when its turn comes, and drops it as soon as it has started.
#![tactic(auto)]

mod requests;
mod running;
mod session;
mod telling;
mod work;

use anyhow::Result;
use running::answers;
use std::io::{Read, Write};

fn main(rt: HostRuntime) -> Result<()> {
    let mut input = Vec::new(rt.alloc());
    rt.stdin().read_to_end(&mut input)?;
    let mut text = String::new(rt.alloc());
    answers(&mut text, &rt, rt.alloc(), &input)?;
    rt.stdout().write_all(text.as_bytes())?;
    Ok(())
}
