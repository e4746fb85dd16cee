//! The lines of what is sent, and of where it arrives.

ghost use Rattle.std.specs.Prelude.{◌≡◌, ◌++◌, OnOk};
ghost use Rattle.std.specs.List.{flat_map};
ghost use Rattle.trace_story.specs.Shown.{arrival_line, line_of_sent};

use conf_types::Conf;
use net_base::{NoMemory, Text};
use net_walk::Arrival;
use of_match::Sent;
use sent_lines::put_sent;

/// Adds a line for each send.
pub(crate) fn put_sents(out: &mut Text, sents: &[Sent]) -> Result<(), NoMemory>
    ensures { OnOk result (out.new ≡ out.old ++ flat_map line_of_sent sents.now) }
{
    for sent in sents {
        put_sent(out, sent.port, &sent.packet)?;
    }
    Ok(())
}

fn put_arrival(out: &mut Text, conf: &Conf, arrival: &Arrival) -> Result<(), NoMemory>
    ensures { OnOk result (out.new ≡ out.old ++ arrival_line conf.now arrival.now) }
{
    if let Some(dp) = conf.dp(arrival.dp) {
        out.append(dp.name.as_str())?;
    }
    out.append(" ")?;
    put_sent(out, arrival.port, &arrival.packet)
}

/// Adds a line for each arrival, with the name of its datapath in front.
pub(crate) fn put_arrivals(
    out: &mut Text,
    conf: &Conf,
    arrivals: &[Arrival],
) -> Result<(), NoMemory>
    ensures { OnOk result (out.new ≡ out.old ++ flat_map (arrival_line conf.now) arrivals.now) }
{
    for arrival in arrivals {
        put_arrival(out, conf, arrival)?;
    }
    Ok(())
}
