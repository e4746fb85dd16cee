//! Laws of the definitions: each function is empty, and its contract is the law.

ghost use Rattle.std.specs.Prelude.{◌≡◌, ◌≤◌, ◌≢◌, ◌++◌, ◌∷◌, ℕ, true, false, List, [], length, Some, None, if◌then◌else◌};
ghost use Rattle.net_base.specs.declared.net4.Net4.{Net4};
ghost use Rattle.bgp_messages.specs.declared.message.Update.{Update};
ghost use Rattle.bgp_routes.specs.declared.routes.BgpRoute.{BgpRoute};
ghost use Rattle.bgp_routes.specs.Networks.{is_same, Fits};
ghost use Rattle.bgp_routes.specs.Sets.{via, without, put, AreAscending, LeadToNetworks};
ghost use Rattle.bgp_routes.specs.Updates.{is_looped, after, names};
ghost use Rattle.bgp_routes.specs.Stories.{Change, ended, routes_of};
ghost use Rattle.bgp_routes.specs.Worked.{office, office_withdrawn, office_by_us, office_routes};

/// Whatever UPDATEs are heard, there are at most 1,024 routes; and the end of the session leaves none.
pub fn routes_are_few()
    ensures few { (our_as : ℕ) (story : List Change) → length (routes_of our_as story) ≤ 1024 }
    ensures ended { (our_as : ℕ) (story : List Change) → routes_of our_as (story ++ ended ∷ []) ≡ [] }
{}

/// The routes stand in the order of their networks, no two of one network, and no network has a host bit.
pub fn routes_are_in_order()
    ensures order { (our_as : ℕ) (story : List Change) → AreAscending (routes_of our_as story) }
    ensures networks { (our_as : ℕ) (story : List Change) → LeadToNetworks (routes_of our_as story) }
{}

/// Routes in order are told by where they lead: two lists with the same ways are one.
pub fn routes_are_their_ways()
    ensures { (a b : List BgpRoute) → AreAscending a → AreAscending b → ((net : Net4) → via net a ≡ via net b) → a ≡ b }
{}

/// What an UPDATE says of a network is the way to it then: an announced one has the next hop, or none where
/// our AS stands in the path; one that is withdrawn alone has none; each other one has the way that it had.
pub fn an_update_says_the_ways()
    ensures announced { (our_as : ℕ) (routes : List BgpRoute) (u : Update) (net : Net4) → names u.announced net ≡ true
        → via net (after our_as routes u) ≡ (if is_looped our_as u then None else Some u.next_hop) }
    ensures withdrawn { (our_as : ℕ) (routes : List BgpRoute) (u : Update) (net : Net4) → names u.announced net ≡ false → names u.withdrawn net ≡ true
        → via net (after our_as routes u) ≡ None }
    ensures others { (our_as : ℕ) (routes : List BgpRoute) (u : Update) (net : Net4) → names u.announced net ≡ false → names u.withdrawn net ≡ false
        → via net (after our_as routes u) ≡ via net routes }
{}

/// Setting a route changes the way to its network and to no other; taking one out leaves none to its
/// network, and the others.
pub fn a_route_is_set_and_taken_out()
    ensures set { (route : BgpRoute) (routes : List BgpRoute) (net : Net4) → via net (put route routes) ≡ (if is_same route.dst net then Some route.gw else via net routes) }
    ensures out { (gone : Net4) (routes : List BgpRoute) (net : Net4) → via net (without gone routes) ≡ (if is_same gone net then None else via net routes) }
{}

/// An UPDATE by AS 65002 announces 172.16.0.0/16, with host bits, by 10.0.100.1: that is the route. The
/// same again changes nothing; withdrawn it is gone, and so it is where our AS, 65001, stands in the path.
pub fn worked_routes()
    ensures announced { (fits : Fits) → after 65001 [] (office fits) ≡ office_routes fits }
    ensures again { (fits : Fits) → after 65001 (office_routes fits) (office fits) ≡ office_routes fits }
    ensures withdrawn { (fits : Fits) → after 65001 (office_routes fits) (office_withdrawn fits) ≡ [] }
    ensures looped { (fits : Fits) → after 65001 (office_routes fits) (office_by_us fits) ≡ [] }
{}
