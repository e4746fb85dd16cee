ghost use Rattle.std.specs.Prelude.{◌≡◌, length, None, Some, Ok, Err};
ghost use Rattle.std.specs.Ordering.{nat_cmp};
ghost use Rattle.std.specs.BTreeMap.{get};
ghost use Rattle.link_hub.specs.Hub.{IsServed, IsSaid, IsSame};

use crate::live::Live;
use fg_links::{Link, Took};
use fg_outside::EndCause;
use net_base::NoMemory;
use std::collections::BTreeMap;

// Open links by the numbers of their connections.
type Lives<L> = BTreeMap<u32, Live<L>>;

/// Serves the link of a connection, and cuts the piece to what was read; `None` where it isn't open.
pub(crate) fn serve_at<L: Link + Drop>(
    lives: &mut Lives<L>,
    conn: u32,
    piece: &mut Vec<u8>,
) -> Option<Took>
    ensures none { result ≡ None → (get nat_cmp lives.old conn ≡ None) × (lives.new ≡ lives.old) }
    ensures some { (answer : _) → result ≡ Some answer → IsServed L.Link answer (length piece.old.items) piece.new.items conn lives.old lives.new }
{
    let live = lives.get_mut(&conn)?;
    Some(live.serve(piece))
}

/// Says a piece on the link of a connection; `None` where it isn't open. After `NoMemory` nothing
/// was said.
pub(crate) fn say_at<L: Link + Drop>(
    lives: &mut Lives<L>,
    conn: u32,
    piece: &[u8],
) -> Option<Result<Option<EndCause>, NoMemory>>
    ensures none { result ≡ None → (get nat_cmp lives.old conn ≡ None) × (lives.new ≡ lives.old) }
    ensures some { (end : _) → result ≡ Some (Ok end) → IsSaid L.Link piece.now end conn lives.old lives.new }
    ensures memory { (error : _) → result ≡ Some (Err error) → IsSame lives.old lives.new }
{
    let live = lives.get_mut(&conn)?;
    Some(live.say(piece))
}
