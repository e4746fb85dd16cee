//! A value of a definition that no case reaches: the function is empty, and its contract has the value.

ghost use Rattle.std.specs.Prelude.{◌≡◌, true, false, List, length};
ghost use Rattle.conf_types.specs.declared.state.HostRec.{HostRec};
ghost use Rattle.conf_types.specs.State.{is_table_full};

/// A controller's table has room for 16,384 hosts.
pub fn the_whole_table()
    ensures room { (hosts : List HostRec) → length hosts ≡ 16383 → is_table_full hosts ≡ false }
    ensures full { (hosts : List HostRec) → length hosts ≡ 16384 → is_table_full hosts ≡ true }
{}
