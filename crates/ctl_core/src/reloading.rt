//! What a new configuration does.

ghost use Rattle.std.specs.Prelude.{◌≡◌, ◌++◌, ℕ, List, map, false, if◌then◌else◌, is_ok, Ok, Err, IfOk, OnOk};
ghost use Rattle.conf_types.specs.Groups.{group_of};
ghost use Rattle.ctl_world.specs.World.{running};
ghost use Rattle.conf_check.specs.Accepted.{IsTextRefused};
ghost use Rattle.ctl_core.specs.declared.found.Found.TheVariants.{Any, Nothing};
ghost use Rattle.ctl_core.specs.Found.{Tells, is_touched};
ghost use Rattle.ctl_core.specs.Reloading.{Gives, accepted, close_each, close_stray, is_stray, of_text, of_tree, reload, renew, strays, want_all, want_each, yaml_fault_text};

use crate::found::Found;
use crate::gateways::want_in;
use conf_causes::put_fault;
use conf_check::{TextRefused, conf_of_bytes};
use conf_gather::laws::a_file_is_read_by_the_grammar;
use conf_shape::ConfFault;
use conf_types::Conf;
use ctl_settle::in_order;
use ctl_world::laws::what_is_said_is_alike;
use ctl_world::{Conn, Said, World};
use itoa::Buffer;
use net_base::{DpId, NoMemory, Text};
use std::alloc::{AllocError, Global};
use switch_session::Closing;
use yaml_subset::YamlFault;

/// What a text gives: a configuration, or why it has none.
#[derive(Drop)]
pub(crate) enum Read {
    Accepted(Conf),
    /// As it stands in a line.
    Refused(Text),
}

fn put_yaml_fault(text: &mut Text, fault: YamlFault) -> Result<(), NoMemory>
    ensures { OnOk result (text.new ≡ text.old ++ yaml_fault_text fault) }
{
    let (cause, form) = fault.cause.names();
    text.append("line ")?;
    text.append(Buffer::new().format(fault.line))?;
    text.append(": ")?;
    text.append(cause)?;
    text.append(form)
}

fn yaml_refusal(alloc: Global, fault: YamlFault) -> Result<Read, NoMemory>
    ensures { IfOk result (λ read. Gives read (of_text (Err fault))) }
{
    let mut text = Text::new(alloc);
    put_yaml_fault(&mut text, fault)?;
    Ok(Read::Refused(text))
}

fn conf_refusal(alloc: Global, fault: &ConfFault) -> Result<Read, NoMemory>
    ensures { IfOk result (λ read. Gives read (of_tree (Err fault.now))) }
{
    let mut text = Text::new(alloc);
    put_fault(&mut text, fault)?;
    Ok(Read::Refused(text))
}

/// Why a text has no configuration, as it stands in a line.
fn refusal(alloc: Global, refused: TextRefused) -> Result<Read, NoMemory>
    ensures { (text : List ℕ) → IsTextRefused text refused → IfOk result (λ read. Gives read (accepted text)) }
{
    a_file_is_read_by_the_grammar();
    match refused {
        TextRefused::Yaml(fault) => yaml_refusal(alloc, fault),
        TextRefused::Conf(fault) => conf_refusal(alloc, &fault),
        TextRefused::Memory => Err(AllocError),
    }
}

fn read_text(alloc: Global, text: &[u8]) -> Result<Read, NoMemory>
    ensures { IfOk result (λ read. Gives read (accepted text.now)) }
{
    a_file_is_read_by_the_grammar();
    match conf_of_bytes(alloc, text) {
        Ok(conf) => Ok(Read::Accepted(conf)),
        Err(refused) => refusal(alloc, refused),
    }
}

/// Whether the switch of a connection is a datapath that the new configuration hasn't.
fn is_stray(next: &Conf, conn: &Conn) -> bool
    ensures { result ≡ is_stray next.now conn.now }
{
    match conn.dp {
        Some(dp) => next.dp(dp).is_none(),
        None => false,
    }
}

/// The numbers of the connections of datapaths that the new configuration hasn't, in ascending order.
fn strays(alloc: Global, next: &Conf, conns: &[Conn]) -> Result<Vec<u32>, NoMemory>
    ensures { IfOk result (λ numbers. numbers.items ≡ strays next.now conns.now) }
{
    conns
        .iter()
        .filter(|conn| is_stray(next, conn))
        .map(|conn| conn.number)
        .collect(alloc)
}

fn close_stray(alloc: Global, world: &mut World, conn: u32) -> Result<(), NoMemory>
    ensures { OnOk result (world.new ≡ close_stray conn world.old) }
{
    if !world.conns.is_open(conn) {
        return Ok(());
    }
    world.close(alloc, Closing::UnknownDp, conn)
}

fn close_each(alloc: Global, world: &mut World, conns: &[u32]) -> Result<(), NoMemory>
    ensures { OnOk result (world.new ≡ close_each conns.now world.old) }
{
    for conn in conns {
        close_stray(alloc, world, *conn)?;
    }
    Ok(())
}

/// The new configuration takes the place of the old one, and what may stay is kept.
fn renew(alloc: Global, world: &mut World, next: Conf) -> Result<(), NoMemory>
    ensures { OnOk result (world.new ≡ renew next world.old) }
{
    world.conf = next;
    let ups = world.ups(alloc)?;
    let running = world.running(alloc)?;
    world.hosts = world.hosts.kept(&world.conf, ups.as_slice(), world.moment)?;
    world.neighbours = world
        .neighbours
        .kept(&world.conf, running.as_slice(), world.moment)?;
    Ok(())
}

fn groups_of(alloc: Global, conf: &Conf, dps: &[DpId]) -> Result<Vec<DpId>, NoMemory>
    ensures { IfOk result (λ groups. groups.items ≡ map (group_of conf.now) dps.now) }
{
    dps.iter().map(|dp| conf.group_number(*dp)).collect(alloc)
}

fn want_each(alloc: Global, world: &mut World, groups: &[DpId]) -> Result<(), NoMemory>
    ensures { OnOk result (world.new ≡ want_each groups.now world.old) }
{
    for group in groups {
        want_in(alloc, world, *group)?;
    }
    Ok(())
}

/// The gateways of the groups that run are wanted.
fn want_all(alloc: Global, world: &mut World) -> Result<(), NoMemory>
    ensures { OnOk result (world.new ≡ want_all world.old) }
{
    let running = world.running(alloc)?;
    let groups = groups_of(alloc, &world.conf, running.as_slice())?;
    let groups = in_order(alloc, groups.as_slice())?;
    want_each(alloc, world, groups.as_slice())
}

fn accept(alloc: Global, world: &mut World, next: Conf) -> Result<(), NoMemory>
    ensures { OnOk result (world.new ≡ reload (Ok next) world.old) }
{
    let gone = strays(alloc, &next, world.conns.as_slice())?;
    close_each(alloc, world, gone.as_slice())?;
    renew(alloc, world, next)?;
    want_all(alloc, world)
}

fn refuse(alloc: Global, world: &mut World, cause: &Text) -> Result<(), NoMemory>
    ensures { OnOk result (world.new ≡ reload (Err cause.now) world.old) }
{
    let mut line = Text::from_str(alloc, "reload: ")?;
    line.append(cause.as_str())?;
    world.said.push(Said::Line(line))
}

/// A text is to take the place of the configuration. One that has a configuration does so: the
/// connections of datapaths that it hasn't are closed, by number, what may stay is kept, and the gateways of the
/// groups that run are wanted. Any other changes nothing, and a line says why. Tells what may differ.
pub(crate) fn reload(alloc: Global, world: &mut World, text: &[u8]) -> Result<Found, NoMemory>
    ensures reloaded { OnOk result (world.new ≡ reload (accepted text.now) world.old) }
    ensures tells { IfOk result (λ found. Tells world.old world.new found) }
    ensures told { IfOk result (λ found. is_touched found ≡ is_ok (accepted text.now)) }
    ensures found { IfOk result (λ found. found ≡ (if is_ok (accepted text.now) then Any else Nothing)) }
{
    what_is_said_is_alike();
    match read_text(alloc, text)? {
        Read::Accepted(next) => {
            accept(alloc, world, next)?;
            Ok(Found::Any)
        }
        Read::Refused(cause) => {
            refuse(alloc, world, &cause)?;
            Ok(Found::Nothing)
        }
    }
}
