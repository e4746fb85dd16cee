ghost use Rattle.std.specs.Prelude.{◌≡◌, IfOk};
ghost use Rattle.yaml_tree.specs.declared.tree.Pair.{Pair};
ghost use Rattle.yaml_tree.specs.declared.tree.Tree.{Tree};
ghost use Rattle.conf_shape.specs.Raw.{output_of, rule_with, rule_of, acl_of_entry};

use crate::keys::key_text;
use crate::kinds::MapKind;
use crate::raw::{RawAcl, RawOutput, RawRule};
use crate::reads::{
    Read, ReadEntry, as_entries, as_items, entries_at, list_at, one_or_list_at, option_at,
    permission_at, read_all,
};
use crate::tables::table_of;
use crate::values::fields_of;
use net_base::NoMemory;
use std::alloc::Global;
use yaml_tree::{Pair, Tree};

impl Read for RawOutput {
    ghost given_by = { output_of };

    fn read(alloc: Global, tree: &Tree) -> Result<RawOutput, NoMemory> {
        let pairs = as_entries(tree);
        Ok(RawOutput {
            port: option_at(alloc, pairs, "port")?,
            ports: list_at(alloc, pairs, "ports")?,
        })
    }
}

fn read_rule(alloc: Global, pairs: &[Pair], actions: &[Pair]) -> Result<RawRule, NoMemory>
    ensures { IfOk result (λ made. made ≡ rule_with pairs.now actions.now) }
{
    let table = table_of(MapKind::Rule);
    Ok(RawRule {
        fields: fields_of(alloc, table.rows, table.spellings, pairs)?,
        allow: permission_at(MapKind::Actions, actions, "allow"),
        mirror: option_at(alloc, actions, "mirror")?,
        output: one_or_list_at(alloc, actions, "output")?,
    })
}

impl Read for RawRule {
    ghost given_by = { rule_of };

    fn read(alloc: Global, tree: &Tree) -> Result<RawRule, NoMemory> {
        let pairs = entries_at(as_entries(tree), "rule");
        read_rule(alloc, pairs, entries_at(pairs, "actions"))
    }
}

impl ReadEntry for RawAcl {
    ghost given_by = { acl_of_entry };

    fn read(alloc: Global, pair: &Pair) -> Result<RawAcl, NoMemory> {
        Ok(RawAcl {
            name: key_text(alloc, &pair.key)?,
            rules: read_all(alloc, as_items(&pair.value))?,
        })
    }
}
