//! The order of all devices' steps.

ghost use Rattle.std.specs.Prelude.{◌≡◌, IfOk, OnErr};
ghost use Rattle.shared_device.specs.Orders.{entered, next_entry, no_order};

use order_rules::OrderEntry;
use std::alloc::{AllocError, Global};
use std::marker::Model;

/// The order of all devices' steps: an entry for each, with the numbers of the datagrams that it sent.
#[derive(Drop)]
pub struct OrderBook {
    entries: Vec<OrderEntry>,
    /// How many datagrams all steps sent.
    sent: u64,
}

impl Model for OrderBook {
    ghost use Rattle.shared_device.specs.Orders.{OrderView};

    ghost Value = { OrderView };

    ghost view = { λ b. record { entries = b.entries.items; sent = b.sent } };
}

impl OrderBook {
    /// No step.
    pub fn make(alloc: Global) -> OrderBook
        ensures { result ≡ no_order }
    {
        OrderBook {
            entries: Vec::new(alloc),
            sent: 0,
        }
    }

    /// Enters the step at this place of the device with this id, which sent so many datagrams: they get the next numbers.
    /// Errors: `AllocError` when out of memory, and where numbers would have more than 64 bits; the order is then as
    /// before.
    pub fn enter(&mut self, device: u8, place: u64, count: u64) -> Result<(), AllocError>
        ensures ok { IfOk result (λ e. self.new ≡ entered self.old device place count) }
        ensures err { OnErr result (self.new ≡ self.old) }
    {
        let Some(first) = self.sent.checked_add(1) else {
            return Err(AllocError);
        };
        let Some(sent) = self.sent.checked_add(count) else {
            return Err(AllocError);
        };
        self.entries.push(OrderEntry {
            device,
            place,
            first,
            count,
        })?;
        self.sent = sent;
        Ok(())
    }

    /// The entries, in the order of the steps.
    pub fn entries(&self) -> &[OrderEntry]
        ensures { result.now ≡ self.now.entries }
    {
        self.entries.as_slice()
    }

    /// The same, by value.
    pub fn into_entries(self) -> Vec<OrderEntry>
        ensures { result.items ≡ self.entries }
    {
        let OrderBook { entries, .. } = self;
        entries
    }
}
