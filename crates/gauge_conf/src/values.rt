//! Texts under the keys of a map.

ghost use Rattle.std.specs.Prelude.{◌≡◌};
ghost use Rattle.conf_shape.specs.Reads.{words_at};
ghost use Rattle.gauge_conf.specs.Keys.{is_prometheus};

use conf_shape::{as_words, value_at};
use yaml_tree::Pair;

/// The text under a key, or an empty one.
pub(crate) fn words_at<'a>(pairs: &'a [Pair], name: &str) -> &'a str
    ensures { result.now ≡ words_at name.now pairs.now }
{
    match value_at(pairs, name) {
        Some(tree) => as_words(tree),
        None => "",
    }
}

/// Whether these are the entries of a db that is written to in Prometheus' text format.
pub(crate) fn is_prometheus(pairs: &[Pair]) -> bool
    ensures { result ≡ is_prometheus pairs.now }
{
    words_at(pairs, "type") == "prometheus"
}
