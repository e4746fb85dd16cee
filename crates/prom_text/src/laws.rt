//! Laws of the definitions: each function is empty, and its contract is the law.

ghost use Rattle.std.specs.Prelude.{◌≡◌, ◌++◌, ℕ, Bool, List, Some};
ghost use Rattle.std.specs.List.{AllByRecursion};
ghost use Rattle.conf_types.specs.declared.datapath.Dp.{Dp};
ghost use Rattle.of13_codec.specs.declared.ports.PortStats.{PortStats};
ghost use Rattle.flow_stats.specs.declared.flow.Flow.{Flow};
ghost use Rattle.prom_text.specs.Apart.{AreApart, FitsFlow, FitsPort};
ghost use Rattle.prom_text.specs.Blocks.{flow_block, port_block, state_block};
ghost use Rattle.prom_text.specs.Counted.{counted_flows, counted_ports};
ghost use Rattle.prom_text.specs.Reading.{IsMetric, read};
ghost use Rattle.prom_text.specs.Samples.{Metric, block_text};

/// By the grammar of the format a block is read back: its metrics, and of each sample the labels with
/// their escapes undone, and the value. So no two blocks are spelled alike.
pub fn a_block_is_read_back()
    ensures { (block : List Metric) → AllByRecursion IsMetric block → read (block_text block) ≡ Some block }
{}

/// The blocks that are written are such blocks.
pub fn written_blocks_are_read_back()
    ensures ports { (d : Dp) (items : List PortStats) → AllByRecursion FitsPort items → read (block_text (port_block d items)) ≡ Some (port_block d items) }
    ensures flows { (d : Dp) (flows : List Flow) → AllByRecursion FitsFlow flows → read (block_text (flow_block d flows)) ≡ Some (flow_block d flows) }
    ensures state { (d : Dp) (number : ℕ) (up : Bool) → read (block_text (state_block d number up)) ≡ Some (state_block d number up) }
{}

/// In a block no two samples of one metric have the same labels, and no two metrics the same name.
pub fn samples_are_told_apart()
    ensures ports { (d : Dp) (items : List PortStats) → AllByRecursion FitsPort items → AreApart (port_block d items) }
    ensures flows { (d : Dp) (flows : List Flow) → AllByRecursion FitsFlow flows → AreApart (flow_block d flows) }
{}

/// What counts is the same where of the items before those that don't count are left out.
pub fn what_doesnt_count_may_go()
    ensures ports { (xs ys : List PortStats) → counted_ports (counted_ports xs ++ ys) ≡ counted_ports (xs ++ ys) }
    ensures flows { (xs ys : List Flow) → counted_flows (counted_flows xs ++ ys) ≡ counted_flows (xs ++ ys) }
{}
