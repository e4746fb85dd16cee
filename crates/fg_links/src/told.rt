/// What a poller is told of the link with a number.
#[derive(Clone, Copy, Debug, PartialEq, Eq)]
pub enum Told {
    /// A read of it answered `NotYet`.
    Quiet(u32),
    /// It is no longer used.
    Gone(u32),
}
