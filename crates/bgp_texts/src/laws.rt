//! Laws of the definitions: each function is empty, and its contract is the law.

ghost use Rattle.std.specs.Prelude.{◌≡◌, true, List};
ghost use Rattle.yaml_tree.specs.declared.tree.Key.{Key};
ghost use Rattle.yaml_tree.specs.declared.tree.Tree.{Tree};
ghost use Rattle.bgp_routes.specs.declared.routes.BgpRoute.{BgpRoute};
ghost use Rattle.bgp_texts.specs.Taking.{is_accepted, tree_of};

/// With the routes that it takes, a document that gives a configuration still does.
pub fn what_is_taken_is_accepted()
    ensures { (vlan : Key) (t : Tree) (routes : List BgpRoute) → is_accepted t ≡ true → is_accepted (tree_of vlan t routes) ≡ true }
{}
