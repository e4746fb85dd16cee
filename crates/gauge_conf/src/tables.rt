ghost use Rattle.std.specs.Prelude.{◌≡◌, map};
ghost use Rattle.std.specs.List.{list_any};
ghost use Rattle.std.specs.Option.{option_map};
ghost use Rattle.std.specs.Str.{bytes_eq};
ghost use Rattle.conf_shape.specs.Keys.{seen_default};
ghost use Rattle.conf_shape.specs.Reads.{default_number};
ghost use Rattle.gauge_conf.specs.Keys.{seen_row, top_keys, keys_of, row_at, default_of, words_of, left_out_of};

use crate::forms::{Form, Need, Part, Vocabulary};
use conf_shape::{ConfCause, DefaultValue};

/// A key that a map may have.
#[derive(Clone, Copy)]
pub struct Row {
    pub key: &'static str,
    pub form: Form,
    pub need: Need,
    /// What stands where the key isn't given.
    pub default: DefaultValue,
}

macro_rules! row {
    ($key:literal, $form:expr, $need:ident) => {
        row!($key, $form, $need, DefaultValue::Nothing)
    };
    ($key:literal, $form:expr, $need:ident, $default:expr) => {
        Row {
            key: $key,
            form: $form,
            need: Need::$need,
            default: $default,
        }
    };
}

const TOP: &[Row] = &[
    row!("faucet_configs", Form::OneText, Always),
    row!("watchers", Form::Named(Part::Watcher), Always),
    row!("dbs", Form::Named(Part::Db), Always),
];

const WATCHER: &[Row] = &[
    row!("type", Form::Word(Vocabulary::WatcherTypes), Always),
    row!("dps", Form::Texts, Never),
    row!(
        "all_dps",
        Form::Only {
            flag: true,
            otherwise: ConfCause::OutOfRange
        },
        Never
    ),
    row!("db", Form::Words, Never),
    row!("dbs", Form::Texts, Never),
    row!(
        "interval",
        Form::Number {
            low: 1,
            high: 86_400
        },
        Never,
        DefaultValue::Count(30)
    ),
];

const DB: &[Row] = &[
    row!("type", Form::Word(Vocabulary::DbTypes), Always),
    row!("file", Form::FileName, UnlessPrometheus),
    row!("prometheus_addr", Form::Words, Never),
    row!(
        "prometheus_port",
        Form::Number {
            low: 1,
            high: 65_535
        },
        Never
    ),
    row!(
        "compress",
        Form::Only {
            flag: false,
            otherwise: ConfCause::LeftOut
        },
        Never
    ),
];

/// The keys of the whole document.
pub fn top_rows() -> &'static [Row]
    ensures { map seen_row result.now ≡ top_keys }
{
    TOP
}

/// The keys of a map under a name.
pub fn rows_of(part: Part) -> &'static [Row]
    ensures { map seen_row result.now ≡ keys_of part }
{
    match part {
        Part::Watcher => WATCHER,
        Part::Db => DB,
    }
}

/// The texts of which a value has to be one.
pub(crate) fn words_of(vocabulary: Vocabulary) -> &'static [&'static str]
    ensures { map (λ word. word.now) result.now ≡ words_of vocabulary }
{
    match vocabulary {
        Vocabulary::WatcherTypes => &["port_state", "port_stats", "flow_table"],
        Vocabulary::DbTypes => &["text", "prometheus"],
    }
}

/// Other texts that are known, and left out.
pub(crate) fn left_out_of(vocabulary: Vocabulary) -> &'static [&'static str]
    ensures { map (λ word. word.now) result.now ≡ left_out_of vocabulary }
{
    match vocabulary {
        Vocabulary::WatcherTypes => &[],
        Vocabulary::DbTypes => &["influx"],
    }
}

/// The row of a key; `None` exactly where there is none.
pub(crate) fn row_at(name: &str, rows: &[Row]) -> Option<Row>
    ensures { option_map seen_row result ≡ row_at name.now (map seen_row rows.now) }
{
    for row in rows {
        if row.key == name {
            return Some(*row);
        }
    }
    None
}

/// Whether a text is one of these.
pub(crate) fn is_listed(text: &str, words: &[&'static str]) -> bool
    ensures { result ≡ list_any (λ word. bytes_eq word text.now) (map (λ word. word.now) words.now) }
{
    for word in words {
        if *word == text {
            return true;
        }
    }
    false
}

fn default_of(rows: &[Row], name: &str) -> DefaultValue
    ensures { seen_default result ≡ default_of (map seen_row rows.now) name.now }
{
    match row_at(name, rows) {
        Some(row) => row.default,
        None => DefaultValue::Nothing,
    }
}

/// The number that stands where a key isn't given.
pub(crate) fn default_number(rows: &[Row], name: &str) -> u32
    ensures { result ≡ default_number (default_of (map seen_row rows.now) name.now) }
{
    match default_of(rows, name) {
        DefaultValue::Count(n) => n,
        _ => 0,
    }
}
