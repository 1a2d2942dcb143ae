//! Scenarios of lists in chunks: past several chunks, and when allocations fail.
#[cfg(test)]
mod again;
#[cfg(test)]
mod memory;
#[cfg(test)]
mod tight;
