//! Lines of scripts: what is wrong with one first and in which column, or else that it is read.

use script_lang::{Line, LineFault, LineWhy, NodeLine, parse_line, parse_node_line};
use std::alloc::{AllocError, Global};

/// A reason in one word, as a bad line is answered with.
fn word(why: LineWhy) -> &'static str {
    match why {
        LineWhy::Long => "long",
        LineWhy::Ascii => "ascii",
        LineWhy::Word => "word",
        LineWhy::Missing => "missing",
        LineWhy::Name => "name",
        LineWhy::Number => "number",
        LineWhy::Hex => "hex",
        LineWhy::Rights => "rights",
        LineWhy::Address => "address",
        LineWhy::BadOption => "option",
        LineWhy::Extra => "extra",
    }
}

fn say_fault(alloc: Global, fault: LineFault) -> Result<String, AllocError> {
    match fault {
        LineFault::Bad { column, why } => format!(in alloc; "bad {column} {}", word(why)),
        LineFault::OutOfMemory => Err(AllocError),
    }
}

/// What is said of a line of `play`.
pub fn say_line(alloc: Global, line: &[u8]) -> Result<String, AllocError> {
    match parse_line(alloc, line) {
        Ok(Line::Blank) => String::from_str(alloc, "blank"),
        Ok(_) => String::from_str(alloc, "ok"),
        Err(fault) => say_fault(alloc, fault),
    }
}

/// What is said of a line of `node`.
pub fn say_node_line(alloc: Global, line: &[u8]) -> Result<String, AllocError> {
    match parse_node_line(alloc, line) {
        Ok(NodeLine::Blank) => String::from_str(alloc, "blank"),
        Ok(_) => String::from_str(alloc, "ok"),
        Err(fault) => say_fault(alloc, fault),
    }
}
