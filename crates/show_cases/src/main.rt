//! Says of each line of standard input, a kind (`datagram`, `play`, `node` or `dump`) and bytes in hex, what the bytes say,
//! or what is wrong with them first and where.
#![tactic(auto)]

mod datagrams;
mod dumps;
mod script_lines;

use hex::FromHexError;
use std::alloc::{AllocError, Global};
use std::io;

/// What is said of bytes of a kind.
fn say_bytes(alloc: Global, kind: &str, bytes: &[u8]) -> Result<String, AllocError> {
    match kind {
        "datagram" => datagrams::say(alloc, bytes),
        "play" => script_lines::say_line(alloc, bytes),
        "node" => script_lines::say_node_line(alloc, bytes),
        "dump" => dumps::say(alloc, bytes),
        _ => String::from_str(alloc, "no kind"),
    }
}

/// What is said of a kind and bytes in hex.
fn say(alloc: Global, given: &str) -> Result<String, AllocError> {
    let (kind, digits) = given.split_once(' ').unwrap_or((given, ""));
    match hex::decode(alloc, digits) {
        Ok(bytes) => say_bytes(alloc, kind, &bytes),
        Err(FromHexError::OutOfMemory) => Err(AllocError),
        Err(_) => String::from_str(alloc, "no hex"),
    }
}

fn main(rt: HostRuntime) -> io::Result<()> {
    for given in rt.lines(rt.alloc()) {
        let given = given?;
        let said = say(rt.alloc(), given.as_str())?;
        println!(rt; "{said}")?;
    }
    Ok(())
}
