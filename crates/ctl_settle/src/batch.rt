ghost use Rattle.std.specs.Prelude.{◌≡◌, IfOk, IfSome, OnOk};
ghost use Rattle.plan_difference.specs.Difference.{difference};
ghost use Rattle.ctl_settle.specs.Plans.{IsReady, plan_for, taken, took, with_batch};
ghost use Rattle.ctl_settle.specs.Settling.{batch, say_batch, say_each};

use crate::plans::{Held, Plans, place};
use ctl_world::{Sent, World};
use flow_messages::make_command;
use net_base::{DpId, NoMemory};
use of_match::{Command, Commands};
use of13_codec::Message;
use std::alloc::Global;

/// Says commands on a connection, in order.
fn say_each(
    alloc: Global,
    world: &mut World,
    conn: u32,
    commands: &[Command],
) -> Result<(), NoMemory>
    ensures { OnOk result (world.new ≡ say_each conn commands.now world.old) }
{
    for command in commands {
        world.say(conn, make_command(alloc, command)?)?;
    }
    Ok(())
}

/// Says a batch on a connection: the commands and a barrier; nothing where there is no command. The switch
/// has these entries then.
fn say_batch(
    alloc: Global,
    world: &mut World,
    conn: u32,
    commands: &[Command],
    entries: Sent,
) -> Result<(), NoMemory>
    ensures { OnOk result (world.new ≡ say_batch conn commands.now entries world.old) }
{
    if commands.is_empty() {
        return Ok(());
    }
    say_each(alloc, world, conn, commands)?;
    world.ask(conn, Message::BarrierRequest)?;
    world.conns.set_sent(conn, entries);
    Ok(())
}

fn take(held: &mut Held, alloc: Global) -> Result<Commands, NoMemory>
    ensures batch { IfOk result (λ batch. batch ≡ difference held.old.plan.sent held.old.plan.wanted) }
    ensures taken { OnOk result (held.new ≡ took held.old) }
    ensures conn { held.new.conn ≡ held.old.conn }
{
    held.plan.take(alloc)
}

/// Takes what leads from the entries that a connection's switch has to those that it is to have, with these.
fn take_for(plans: &mut Plans, alloc: Global, number: u32) -> Result<(Commands, Sent), NoMemory>
    ensures batch { IfOk result (λ made. IfSome (plan_for plans.old number) (λ p. (made.0 ≡ difference p.sent p.wanted) × (made.1 ≡ p.wanted))) }
    ensures taken { OnOk result (plans.new ≡ taken number plans.old) }
{
    let Some(at) = place(plans.held.as_slice(), number) else {
        return Ok((Commands::new(alloc), Sent::none(alloc)));
    };
    let commands = take(&mut plans.held[at], alloc)?;
    let entries = Sent::of(plans.held[at].plan.sent());
    Ok((commands, entries))
}

/// Says to a datapath what leads from the entries that it has to those that it is to have, which its plan wants;
/// nothing while a barrier is outstanding.
pub(crate) fn batch(
    alloc: Global,
    world: &mut World,
    plans: &mut Plans,
    dp: DpId,
) -> Result<(), NoMemory>
    requires { IsReady world.old plans.old dp }
    ensures said { OnOk result (world.new ≡ batch dp world.old) }
    ensures taken { OnOk result (plans.new ≡ with_batch dp world.old plans.old) }
{
    let Some(conn) = world.conns.of(dp) else {
        return Ok(());
    };
    if conn.session.awaited().is_some() {
        return Ok(());
    }
    let number = conn.number;
    let (commands, entries) = take_for(plans, alloc, number)?;
    say_batch(alloc, world, number, commands.as_slice(), entries)
}
