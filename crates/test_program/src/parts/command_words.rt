//! Commands that words spell.

use command_line::Command;
use std::alloc::{AllocError, Global};
use workload_gen::Mix;

/// What words are found to spell.
#[derive(Clone, Copy, PartialEq, Eq)]
enum Spelled {
    Nothing,
    Play,
    Bulk(u64, Mix),
    Help,
    Another,
    /// The device, and how many targets.
    Evacuate(u8, usize),
    Audit,
    Record,
    /// The device.
    Node(u8),
}

fn told(command: &Option<Command>) -> Spelled {
    match command {
        None => Spelled::Nothing,
        Some(Command::Play) => Spelled::Play,
        Some(Command::Bulk { seed, mix }) => Spelled::Bulk(*seed, *mix),
        Some(Command::ShowDump { name }) if name.as_bytes() == b"help".as_slice() => Spelled::Help,
        Some(Command::ShowDump { .. }) => Spelled::Another,
        Some(Command::Evacuate { from, targets }) => Spelled::Evacuate(*from, targets.len()),
        Some(Command::Audit) => Spelled::Audit,
        Some(Command::Record) => Spelled::Record,
        Some(Command::Node { id, .. }) => Spelled::Node(*id),
    }
}

/// The words of a line with one space between them.
fn words_of(alloc: Global, line: &str) -> Result<Vec<String>, AllocError> {
    let mut list = Vec::new(alloc);
    for word in line.split(' ') {
        list.push(word.to_string(alloc)?)?;
    }
    Ok(list)
}

/// What the words of a line spell.
fn command_of(alloc: Global, line: &str) -> Result<Spelled, AllocError> {
    let list = words_of(alloc, line)?;
    let command = Command::of(alloc, list.as_slice())?;
    Ok(told(&command))
}

const MIX: Mix = Mix {
    connections: 2,
    messages: 300,
    moves: 4,
};

#[test]
fn words_spell_commands(rt: HostRuntime) -> Result<(), AllocError> {
    let lines = [
        ("play", Spelled::Play),
        ("play more", Spelled::Nothing),
        ("bulk 7 2 300 4", Spelled::Bulk(7, MIX)),
        ("show-dump help", Spelled::Help),
        ("evacuate 2 3 1", Spelled::Evacuate(2, 2)),
        ("evacuate 2 2", Spelled::Nothing),
        ("audit", Spelled::Audit),
        ("record", Spelled::Record),
        ("node 1 127.0.0.1:4801", Spelled::Node(1)),
        ("node 0 127.0.0.1:4801", Spelled::Nothing),
    ];
    for (line, wanted) in lines {
        assert!(rt; command_of(rt.alloc(), line)? == wanted, "{line}");
    }
    Ok(())
}
