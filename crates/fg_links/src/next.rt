use net_base::Items;

/// The answer of a poller.
#[derive(Debug, Drop)]
pub enum Next<L> {
    /// A link opened.
    New(L),
    /// The link with this number can be read or written again, or has ended.
    Ready(u32),
    /// The clock shows this moment, in milliseconds.
    Moment(u64),
    /// Nothing more will happen.
    Stop,
    /// The poller failed.
    Failed,
}

/// What a poller in memory gives.
#[derive(Debug, Drop)]
pub enum MemNext<L> {
    /// A link.
    New(L),
    /// The number of a link.
    Ready(u32),
    /// A moment, in milliseconds.
    Moment(u64),
}

/// A list of what a poller in memory gives.
pub type MemNexts<L> = Items<MemNext<L>>;
