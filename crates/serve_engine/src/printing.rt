//! The texts of answers.

use rdma_types::{Answer, Name};
use script_lang::{LineWhy, print_answer};
use serve_rules::Reply;
use std::alloc::{AllocError, Global};

/// The word of what is wrong with a line.
fn why_text(why: LineWhy) -> &'static [u8] {
    match why {
        LineWhy::Long => b"long",
        LineWhy::Ascii => b"ascii",
        LineWhy::Word => b"word",
        LineWhy::Missing => b"missing",
        LineWhy::Name => b"name",
        LineWhy::Number => b"number",
        LineWhy::Hex => b"hex",
        LineWhy::Rights => b"rights",
        LineWhy::Address => b"address",
        LineWhy::BadOption => b"option",
        LineWhy::Extra => b"extra",
    }
}

/// The answer to a bad line. Errors: `AllocError` when out of memory.
fn bad_line_text(alloc: Global, column: usize, why: LineWhy) -> Result<Vec<u8>, AllocError> {
    let mut digits = itoa::Buffer::new();
    let mut text = Vec::from_slice(alloc, b"bad line ")?;
    text.extend_from_slice(digits.format(column).as_bytes())?;
    text.push(b' ')?;
    text.extend_from_slice(why_text(why))?;
    text.push(b'\n')?;
    Ok(text)
}

/// The text of what the device answered. Errors: `AllocError` when out of memory.
fn device_text(alloc: Global, answer: &Answer) -> Result<Vec<u8>, AllocError> {
    let mut text = Vec::new(alloc);
    print_answer(answer, &mut text)?;
    Ok(text)
}

/// The text of an answer. Errors: `AllocError` when out of memory.
pub(crate) fn reply_text(alloc: Global, reply: &Reply) -> Result<Vec<u8>, AllocError> {
    let text: &[u8] = match reply {
        Reply::Nothing => b"",
        Reply::Device(answer) => return device_text(alloc, answer),
        Reply::Stopped => b"stopped\n",
        Reply::Restored => b"ok\n",
        Reply::Shown(text) => text.as_slice(),
        Reply::BadLine { column, why } => return bad_line_text(alloc, *column, *why),
        Reply::Missing => b"refused Missing\n",
        Reply::Taken => b"refused Taken\n",
        Reply::Depot => b"refused Depot\n",
        Reply::BadDump => b"refused BadDump\n",
        Reply::Memory => b"refused Memory\n",
        Reply::Waited => b"waited\n",
        Reply::Idle => b"idle\n",
        Reply::Running => b"running\n",
        Reply::Error => b"error\n",
        Reply::Late => b"late\n",
        Reply::NoSuch => b"refused NoSuch\n",
    };
    Vec::from_slice(alloc, text)
}

/// What is told of a context at the end, by the answer to its stop. Errors: `AllocError` when out of memory.
pub(crate) fn kept_text(alloc: Global, name: &Name, reply: &Reply) -> Result<Vec<u8>, AllocError> {
    let words: &[u8] = match reply {
        Reply::Stopped => b"kept ",
        _ => b"left ",
    };
    let mut text = Vec::from_slice(alloc, words)?;
    text.extend_from_slice(name.as_bytes())?;
    match reply {
        Reply::Stopped => text.push(b'\n')?,
        _ => {
            text.push(b' ')?;
            text.extend_from_slice(reply_text(alloc, reply)?.as_slice())?;
        }
    }
    Ok(text)
}
