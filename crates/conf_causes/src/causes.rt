ghost use Rattle.std.specs.Prelude.{◌≡◌, ◌++◌, OnOk};
ghost use Rattle.conf_causes.specs.Causes.{cause_name, conf_cause_text, fault_text, limit_text};

use conf_shape::{ConfCause, ConfFault, LimitName};
use itoa::Buffer;
use net_base::{NoMemory, Text};

/// The name of a limit.
pub fn limit_name(limit: LimitName) -> &'static str
    ensures { result.now ≡ limit_text limit }
{
    match limit {
        LimitName::Dps => "Dps",
        LimitName::Ports => "Ports",
        LimitName::Vlans => "Vlans",
        LimitName::Mirrors => "Mirrors",
        LimitName::Special => "Special",
        LimitName::Rules => "Rules",
        LimitName::AclEntries => "AclEntries",
        LimitName::AclOutputs => "AclOutputs",
        LimitName::Members => "Members",
        LimitName::Vips => "Vips",
        LimitName::RouterVlans => "RouterVlans",
        LimitName::Routes => "Routes",
        LimitName::Gateways => "Gateways",
        LimitName::RouteItems => "RouteItems",
    }
}

/// The name of a cause, which may have a number or the name of a limit behind it.
fn cause_name(cause: ConfCause) -> &'static str
    ensures { result.now ≡ cause_name cause }
{
    match cause {
        ConfCause::UnknownKey => "UnknownKey",
        ConfCause::LeftOut => "LeftOut",
        ConfCause::Missing => "Missing",
        ConfCause::WrongType => "WrongType",
        ConfCause::OutOfRange => "OutOfRange",
        ConfCause::BadText => "BadText",
        ConfCause::Unresolved => "Unresolved",
        ConfCause::Duplicate => "Duplicate",
        ConfCause::Conflict(_) => "Conflict ",
        ConfCause::TooMany(_) => "TooMany ",
    }
}

fn put_cause(text: &mut Text, cause: ConfCause) -> Result<(), NoMemory>
    ensures { OnOk result (text.new ≡ text.old ++ conf_cause_text cause) }
{
    text.append(cause_name(cause))?;
    match cause {
        ConfCause::Conflict(rule) => text.append(Buffer::new().format(rule)),
        ConfCause::TooMany(limit) => text.append(limit_name(limit)),
        _ => Ok(()),
    }
}

/// Adds where and why a configuration is refused, as it stands in a line: the path and the cause.
pub fn put_fault(text: &mut Text, fault: &ConfFault) -> Result<(), NoMemory>
    ensures { OnOk result (text.new ≡ text.old ++ fault_text fault.now) }
{
    text.append(fault.path.as_str())?;
    text.append(": ")?;
    put_cause(text, fault.cause)
}
