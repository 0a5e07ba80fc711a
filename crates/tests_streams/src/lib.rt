//! Tests of running streams and of their writers, through their public items.
//!
//! They show how the front moves where stores come out of order, a stream that gets full, writes in one another's
//! gates, and two threads that store to one stream at once.
//!
//! Begin with `streams.rt`, then `writes.rt`.
#![tactic(auto)]

#[cfg(test)]
mod shown;
#[cfg(test)]
mod streams;
#[cfg(test)]
mod writes;
