ghost use Rattle.std.specs.Prelude.{◌≡◌, IfOk};
ghost use Rattle.conf_gather.specs.WholeName.{begins_with_slash, whole_name};

use net_base::{NoMemory, Text};
use std::alloc::Global;

fn begins_with_slash(name: &[u8]) -> bool
    ensures { result ≡ begins_with_slash name.now }
{
    match name {
        [b, ..] => *b == b'/',
        [] => false,
    }
}

/// The whole name of a file that another one names: the folder of that one and the name as written,
/// not normalised; one that begins with a slash stands as it is.
pub fn whole_name(alloc: Global, including: &str, written: &str) -> Result<Text, NoMemory>
    ensures { IfOk result (λ name. name ≡ whole_name including.now written.now) }
{
    if begins_with_slash(written.as_bytes()) {
        return Text::from_str(alloc, written);
    }
    match including.rsplit_once('/') {
        Some((folder, _)) => {
            let mut name = Text::from_str(alloc, folder)?;
            name.append("/")?;
            name.append(written)?;
            Ok(name)
        }
        None => Text::from_str(alloc, written),
    }
}
