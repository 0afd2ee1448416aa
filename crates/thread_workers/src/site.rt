//! The devices that workers and the mover share.

ghost use Rattle.std.specs.Prelude.{◌≤◌};

use rdma_types::Address;
use shared_device::{Book, OrderBook, Orders, Station, open_books};
use std::alloc::{AllocError, Global};

/// Devices behind locks, and the order of their steps.
#[derive(Drop)]
pub struct SharedDevices {
    stations: Vec<Station>,
    pub orders: Orders,
}

impl SharedDevices {
    /// The devices with which that many workers open.
    pub fn open(alloc: Global, workers: u32) -> Result<SharedDevices, AllocError>
        requires { (1 ≤ workers) × (workers ≤ 8) }
    {
        let books = open_books(alloc, workers)?;
        let mut stations = Vec::with_capacity(alloc, books.len())?;
        for book in books {
            stations.push(Station::make(book))?;
        }
        Ok(SharedDevices {
            stations,
            orders: Orders::make(OrderBook::make(alloc)),
        })
    }

    /// The device with an id.
    pub fn station(&self, id: u8) -> Option<&Station> {
        for station in &self.stations {
            if station.id() == id {
                return Some(station);
            }
        }
        None
    }

    /// The device at an address.
    pub fn station_at(&self, address: Address) -> Option<&Station> {
        for station in &self.stations {
            if station.address() == address {
                return Some(station);
            }
        }
        None
    }

    /// The books, and the order of their steps.
    pub fn into_books(self, alloc: Global) -> Result<(Vec<Book>, OrderBook), AllocError> {
        let SharedDevices { stations, orders } = self;
        let mut books = Vec::with_capacity(alloc, stations.len())?;
        for station in stations {
            books.push(station.into_book())?;
        }
        Ok((books, orders.into_book()))
    }
}
