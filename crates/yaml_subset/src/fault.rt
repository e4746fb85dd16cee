//! Why a text is refused.

ghost use Rattle.std.specs.Prelude.{◌≡◌};
ghost use Rattle.yaml_subset.specs.declared.fault.LineRefused.TheVariants.{Memory};

use std::alloc::{AllocError, AllocFailed};

/// What YAML has and this subset leaves out.
#[derive(Clone, Copy, Debug, PartialEq, Eq)]
pub enum YamlForm {
    /// `&` where a value may begin.
    Anchor,
    /// `*` where a value may begin.
    Alias,
    /// `!` where a value may begin.
    Tag,
    /// `|` or `>` where a value may begin.
    BlockScalar,
    /// `%` at the start of a line.
    Directive,
    /// `?` and a space, or `?` at the line's end.
    ComplexKey,
    /// The plain key `<<`.
    MergeKey,
    /// A later `---`, or `...`.
    Documents,
    /// A bracket that is open at the line's end.
    LongFlow,
    /// A quote that is open at the line's end.
    LongQuote,
    /// A whole number outside the range of `i128`.
    Wide,
}

/// Why a line is refused; where two causes stand at one column, the earlier one here decides.
#[derive(Clone, Copy, Debug, PartialEq, Eq)]
pub enum YamlCause {
    /// The text isn't UTF-8.
    NotUtf8,
    /// The text has more than 1,048,576 bytes.
    TooLong,
    /// More than 32 lists and maps are nested.
    TooDeep,
    /// A tab outside quotes and comments.
    Tab,
    /// A form of YAML that the subset leaves out.
    LeftOut(YamlForm),
    /// The line's indent fits no open block, or a deeper line follows a value.
    Indent,
    /// The map has the key already.
    DuplicateKey,
    /// The line can't be read on.
    Syntax,
}

/// The first fault of a text: its line, counted from 1 (0 for `TooLong`), and its cause.
#[derive(Clone, Copy, Debug, PartialEq, Eq)]
pub struct YamlFault {
    pub line: u32,
    pub cause: YamlCause,
}

/// Why `read_yaml` gave no tree.
#[derive(Clone, Copy, Debug, PartialEq, Eq)]
pub enum YamlRefused {
    /// The text is refused.
    At(YamlFault),
    /// Memory ran out.
    Memory,
}

/// Why a line wasn't read.
#[derive(Debug, Drop)]
pub enum LineRefused {
    Cause(YamlCause),
    Memory,
}

impl From<AllocError> for LineRefused {
    ghost from_gives = { λ _ e. e ≡ Memory };

    fn from(_e: AllocError) -> LineRefused {
        LineRefused::Memory
    }
}

impl<T: Drop> From<AllocFailed<T>> for LineRefused {
    ghost from_gives = { λ _ e. e ≡ Memory };

    fn from(_e: AllocFailed<T>) -> LineRefused {
        LineRefused::Memory
    }
}
