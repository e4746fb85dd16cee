ghost use Rattle.std.specs.Prelude.{◌≡◌, ◌++◌, OnOk};

use net_base::NoMemory;
use of_match::Entries;

/// Adds entries at the end, in order. Each is moved, and none is copied.
pub(crate) fn append(out: &mut Entries, entries: Entries) -> Result<(), NoMemory>
    ensures { OnOk result (out.new ≡ out.old ++ entries) }
{
    for entry in entries.into_vec() {
        out.push(entry)?;
    }
    Ok(())
}
