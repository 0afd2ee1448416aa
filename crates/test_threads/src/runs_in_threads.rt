//! Worked examples of books, orders, the check of a run, and runs.

#[cfg(test)]
mod runs;
#[cfg(test)]
mod tests;
#[cfg(test)]
mod threads;
