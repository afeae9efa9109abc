//! The trait `Gate`, where connections can be watched or held; `visiting` passes each through it, and `tcp_proxy`'s is always
//! open.

/// What sees each connection between its verdict and the release of its references.
pub trait Gate {
    /// Called once for each connection, by its number, after it was judged and before its references are released. The
    /// connection goes on once this returns.
    fn pass(&self, connection: u64);
}
