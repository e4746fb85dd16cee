use conf_shape::ConfCause;

/// Whether a key has to be there.
#[derive(Clone, Copy)]
pub enum Need {
    /// In each map.
    Always,
    /// In each map but one whose `type` is `prometheus`.
    UnlessPrometheus,
    Never,
}

/// A few texts of which a value has to be one.
#[derive(Clone, Copy)]
pub enum Vocabulary {
    /// `type` of a watcher.
    WatcherTypes,
    /// `type` of a db.
    DbTypes,
}

/// A map that stands under a name of the user's.
#[derive(Clone, Copy)]
pub enum Part {
    /// What is watched, and where it is written.
    Watcher,
    /// What is written, and where.
    Db,
}

/// What a value has to be.
#[derive(Clone, Copy)]
pub enum Form {
    /// Any text.
    Words,
    /// A list of texts.
    Texts,
    /// A list of one text.
    OneText,
    /// A text without control characters.
    FileName,
    /// One of a few texts.
    Word(Vocabulary),
    /// A whole number in a range.
    Number { low: u64, high: u64 },
    /// This flag; the other one is refused so.
    Only { flag: bool, otherwise: ConfCause },
    /// A map from names of the user's, each of them a text, to such maps.
    Named(Part),
}
