//! Devices behind locks, the one order of their steps, and the books with which threads open (this project's choice).
#![tactic(auto)]

mod book;
mod locks;
mod openings;
mod order_book;
mod receipt;

pub use book::Book;
pub use locks::{Orders, Station, StationGuard};
pub use openings::open_books;
pub use order_book::OrderBook;
pub use order_rules::OrderEntry;
pub use receipt::{Receipt, Step};
