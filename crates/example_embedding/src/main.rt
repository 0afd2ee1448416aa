//! The device in a program of one's own: three machines with a device each, a link between them, and a context that moves
//! in the middle of a write. It prints what each device answers. docs/embedding.md explains each call.
#![tactic(auto)]

mod fault;
mod machines;
mod sides;

use fault::Fault;
use machines::Machines;
use std::alloc::Global;
use std::io;

/// The write begins, its target moves from machine 2 to machine 3, and the write goes on.
fn story(alloc: Global) -> Result<Machines, Fault> {
    let mut machines = Machines::make(alloc)?;
    sides::open(&mut machines)?;
    sides::write(&mut machines, 600)?;
    machines.transmit(1)?;
    machines.deliver()?;
    let dump = machines.stop(2, b"b")?;
    machines.restore(3, dump.as_slice())?;
    for _ in 0..5 {
        machines.turn()?;
    }
    sides::poll(&mut machines)?;
    machines.release(2, b"b")?;
    Ok(machines)
}

fn main(rt: HostRuntime) -> io::Result<()> {
    match story(rt.alloc()) {
        Ok(machines) => print!(rt; "{}", machines.told())?,
        Err(fault) => println!(rt; "{fault}")?,
    }
    Ok(())
}
