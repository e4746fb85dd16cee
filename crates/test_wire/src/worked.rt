//! Values of definitions that no test can reach by calls: each function is empty, and its contract
//! has the values.

ghost use Rattle.std.specs.Prelude.{◌≡◌};
ghost use Rattle.switch_session.specs.Connections.{next_id};

/// Transaction ids count from 1, and 1 comes behind the greatest one.
pub fn transaction_ids()
    ensures first { next_id 0 ≡ 1 }
    ensures greatest { next_id 0xfffffffe ≡ 0xffffffff }
    ensures again { next_id 0xffffffff ≡ 1 }
{}
