//! Calls of a table of hosts, as values.

ghost use Rattle.law_calls.specs.Hosts.{IsMade, Makes};
ghost use Rattle.law_calls.specs.Runs.{Run};

use conf_types::{Conf, HostRec, UpRec};
use host_learn::{HostTable, Learn};
use net_base::{DpId, Moment, PortNo};

/// A call that may change a table of hosts.
#[derive(Clone, Copy)]
pub enum HostCall<'a> {
    /// `learn`: a packet came from this host.
    Hear {
        conf: &'a Conf,
        host: HostRec,
    },
    /// `age`
    Age {
        conf: &'a Conf,
        moment: Moment,
    },
    /// `forget_due`
    ForgetDue {
        conf: &'a Conf,
        moment: Moment,
    },
    /// `forget_port`
    ForgetPort {
        dp: DpId,
        port: PortNo,
    },
    /// `forget_dp`
    ForgetDp(DpId),
    /// `kept`, which takes the table's place.
    Keep {
        conf: &'a Conf,
        ups: &'a [UpRec],
        moment: Moment,
    },
}

/// The answer to a call.
#[derive(Clone, Copy)]
pub enum HostAnswer {
    /// What became of the host.
    Heard(Learn),
    /// The host that was forgotten.
    Aged(Option<HostRec>),
    /// It was done.
    Done,
    /// Memory ran out.
    Memory,
}

/// Makes a call.
pub fn make(table: &mut HostTable, call: &HostCall<'_>) -> HostAnswer
    ensures { Makes table.old call.now result table.new }
{
    match *call {
        HostCall::Hear { conf, host } => {
            match table.learn(conf, host.dp, host.port, host.vid, host.mac, host.learned) {
                Ok(told) => HostAnswer::Heard(told),
                Err(_) => HostAnswer::Memory,
            }
        }
        HostCall::Age { conf, moment } => HostAnswer::Aged(table.age(conf, moment)),
        HostCall::ForgetDue { conf, moment } => {
            table.forget_due(conf, moment);
            HostAnswer::Done
        }
        HostCall::ForgetPort { dp, port } => {
            table.forget_port(dp, port);
            HostAnswer::Done
        }
        HostCall::ForgetDp(dp) => {
            table.forget_dp(dp);
            HostAnswer::Done
        }
        HostCall::Keep { conf, ups, moment } => match table.kept(conf, ups, moment) {
            Ok(kept) => {
                *table = kept;
                HostAnswer::Done
            }
            Err(_) => HostAnswer::Memory,
        },
    }
}

/// Makes calls one behind the other, whatever each of them answers.
pub fn make_all(table: &mut HostTable, calls: &[HostCall<'_>])
    ensures { Run IsMade table.old calls.now table.new }
{
    for call in calls {
        let _answer = make(table, call);
    }
}
