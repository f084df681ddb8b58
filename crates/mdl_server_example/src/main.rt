//! `mdl_server_example` uses the library as a server would: it reads requests from standard input, one on each line, and prints what
//! becomes of them.
//!
//! A request is the number of a session and a statement: `2 SELECT shop.orders`. A [`Server`](server::Server) runs the statements
//! over one lock space. A request is dropped as soon as its statement has started, whether or not the statement waits. After each
//! request, the statements go on whose waits are settled. `telling` puts the answers into words.
#![tactic(auto)]

mod server;
mod telling;

use anyhow::Result;
use mdl_key::MOST_SESSIONS;
use mdl_lines::Fault;
use mdl_syntax::{Script, parse};
use server::Server;
use std::alloc::Global;
use std::io::{self, BufRead, BufReader, Write};
use telling::tell;

fn main(rt: HostRuntime) -> Result<()> {
    let alloc = rt.alloc();
    let mut input = BufReader::new(alloc, rt.stdin())?;
    let mut server = Server::new(alloc, MOST_SESSIONS)?;
    let end = serve_all(alloc, &mut server, &mut input, &mut rt.stdout());
    // All sessions end.
    server.close();
    Ok(end?)
}

// Serves the requests until the input ends. After each, statements go on until no wait is settled.
fn serve_all<R: BufRead, W: Write>(
    alloc: Global,
    server: &mut Server,
    input: &mut R,
    output: &mut W,
) -> io::Result<()> {
    let mut request = Vec::new(alloc);
    for number in 1..u64::MAX {
        request.clear();
        if input.read_until(b'\n', &mut request)? == 0 {
            break;
        }
        serve(alloc, server, number, &request, output)?;
        go_on(server, output)?;
    }
    Ok(())
}

// Serves the request on the line of this number. One that can't be read changes nothing.
fn serve<W: Write>(
    alloc: Global,
    server: &mut Server,
    number: u64,
    request: &[u8],
    output: &mut W,
) -> io::Result<()> {
    match parse(alloc, request) {
        Ok(script) => start(server, &script, output),
        Err(Fault::Refused(_, error)) => writeln!(output, "line {number} refused: {error}"),
        Err(fault) => writeln!(output, "line {number} refused: {fault}"),
    }
}

// Starts the statement that was read, unless the line is empty or a comment.
fn start<W: Write>(server: &mut Server, script: &Script, output: &mut W) -> io::Result<()> {
    match script.lines().first() {
        Some(line) => {
            let answer = server.start(line.session, &line.statement);
            tell(output, line.session, answer)
        }
        None => Ok(()),
    }
}

// Lets statements go on until no wait is settled.
fn go_on<W: Write>(server: &mut Server, output: &mut W) -> io::Result<()> {
    for _round in 0..u64::MAX {
        if !each_goes_on(server, output)? {
            break;
        }
    }
    Ok(())
}

// Lets the statement of each session go on once, if its wait is settled. Answers whether one of them did.
fn each_goes_on<W: Write>(server: &mut Server, output: &mut W) -> io::Result<bool> {
    let mut is_further = false;
    for who in 1..MOST_SESSIONS + 1 {
        if let Some(answer) = server.go_on(who) {
            tell(output, who, answer)?;
            is_further = true;
        }
    }
    Ok(is_further)
}
