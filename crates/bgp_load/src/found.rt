use bgp_peer::Peering;
use yaml_tree::{Key, Tree};

/// A peer, with what the texts with its routes are made of.
#[derive(Debug, Drop)]
pub struct LoadedPeer {
    /// Between whom BGP is spoken.
    pub peering: Peering,
    /// The key of the VLAN whose routes those of the peer follow, where the document has it.
    pub vlan: Option<Key>,
    /// The document, gathered of all that the file includes.
    pub tree: Tree,
}

/// Why a configuration has no peer to speak with.
#[derive(Clone, Copy, Debug, PartialEq, Eq)]
pub enum PeerLacks {
    /// No router has the name.
    Router,
    /// The router has no peer.
    Peer,
    /// The document's text has more than 900,000 bytes.
    Room,
}

/// The peer of a router, or why there is none.
pub type FoundPeer = Result<LoadedPeer, PeerLacks>;
