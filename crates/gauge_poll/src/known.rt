use crate::newest::Newest;
use crate::parts::Parts;
use ctl_world::World;
use gauge_conf::Watchers;
use net_base::Names;

/// What is known of the connections and said in the present turn, the newest polls, and what waits of their
/// replies.
#[derive(Drop)]
pub(crate) struct Known {
    pub world: World,
    pub newest: Newest,
    pub parts: Parts,
}

/// What is watched, what is known, and the lines and blocks of the present turn.
#[derive(Drop)]
pub(crate) struct Kept {
    pub watchers: Watchers,
    pub known: Known,
    pub lines: Names,
}
