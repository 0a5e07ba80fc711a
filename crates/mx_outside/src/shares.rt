//! How the connections of a listener are shared among its handles.
use std::alloc::{AllocError, Global};
use std::sync::Arc;

/// The part of the mean by which a handle may have more connections than the mean, so that handles that keep up needn't wait for one
/// that doesn't.
const SLACK: usize = 32;

/// The open connections of a listener: those of one of its handles, and those of all.
#[derive(Drop)]
pub(crate) struct Shares {
    /// Held by each handle.
    handles: Arc<()>,
    /// Held by each handle and by each connection.
    all: Arc<()>,
    /// Held by this handle and by each of its connections.
    own: Arc<()>,
}

/// What a connection holds while it's open: it counts among those of its handle, and among all.
#[derive(Drop)]
pub(crate) struct Place {
    _all: Arc<()>,
    _own: Arc<()>,
}

impl Shares {
    /// Those of a listener's first handle.
    pub(crate) fn new(alloc: Global) -> Result<Shares, AllocError> {
        Ok(Shares {
            handles: Arc::new(alloc, ())?,
            all: Arc::new(alloc, ())?,
            own: Arc::new(alloc, ())?,
        })
    }

    /// Those of a further handle of the same listener.
    pub(crate) fn beside(&self, alloc: Global) -> Result<Shares, AllocError> {
        Ok(Shares {
            handles: Arc::try_clone(&self.handles)?,
            all: Arc::try_clone(&self.all)?,
            own: Arc::new(alloc, ())?,
        })
    }

    /// A place for a connection more of this handle.
    pub(crate) fn place(&self) -> Result<Place, AllocError> {
        Ok(Place {
            _all: Arc::try_clone(&self.all)?,
            _own: Arc::try_clone(&self.own)?,
        })
    }

    /// Whether this handle has more connections than the mean of all handles, and a `SLACK`th of it.
    pub(crate) fn has_more_than_mean(&self) -> bool {
        let all = Arc::strong_count(&self.all);
        let own = Arc::strong_count(&self.own).saturating_mul(Arc::strong_count(&self.handles));
        own > all.saturating_add(all / SLACK)
    }
}
