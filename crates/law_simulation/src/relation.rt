//! The law between the packet protocol and the packetless machine: whatever happens to a world of packets, the machine
//! makes steps that bring it to a state that the world stands for, and hears what the applications hear.
//!
//! The functions have no code. Each promises the law for the events that it names.

ghost use Rattle.std.specs.Prelude.{ℕ};
ghost use Rattle.rdma_types.specs.declared.requests.Address.{Address};
ghost use Rattle.protocol.specs.State.{empty_world};
ghost use Rattle.protocol.specs.declared.events.WorldEvent.TheVariants.{AddDevice};
ghost use Rattle.packetless_machine.specs.Machine.{empty};
ghost use Rattle.law_simulation.specs.Law.{IsInRange, Follows};

mod making;
mod memory;
mod network;
mod posting;

pub use making::{making_follows, starts};
pub use memory::memory_follows;
pub use network::network_follows;
pub use posting::posting_follows;

// How a crate above uses the law: it calls the functions, and cites what they promise.
fn first_device_follows()
    ensures { (id : ℕ) (address : Address) → IsInRange (AddDevice id address)
        → Follows empty_world empty (AddDevice id address) }
{
    starts();
    making_follows();
}
