//! Completions handed to consumers in threads, as tests.

#[cfg(test)]
mod counts;
#[cfg(test)]
mod holding;
#[cfg(test)]
mod numbered;
#[cfg(test)]
mod runs;
