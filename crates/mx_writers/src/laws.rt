//! What crosses threads.

use crate::folds::Folds;
use crate::shards::{Shard, Writers};
use mx_core::{crosses_threads, goes_to_threads};

/// Writers cross threads where their values and items do, and a shard goes to another thread.
pub fn writers_cross_threads<F: Folds + Send + Sync>()
where
    F::Item: Send + Sync,
{
    goes_to_threads::<Shard<F>>();
    crosses_threads::<Writers<F>>();
}
