ghost use Rattle.std.specs.Prelude.{◌≡◌, IfOk};
ghost use Rattle.flow_messages.specs.Messages.{add, command_message, delete_all, delete_strict};

use net_base::{Fields, NoMemory, TryCopy};
use of_match::{Command, Entry, Instrs, Key};
use of13_codec::{FlowMod, Message};
use std::alloc::Global;

/// The cookie of every entry of this controller, by which a packet that one of them sent is known
/// (OpenFlow 1.3, 7.4.1).
pub const COOKIE: u64 = 0x5adc_15c0;

/// No buffered packet, any port, any group: all the same number (OpenFlow 1.3, 7.2.1, 7.3.4.1).
const NONE: u32 = 0xffff_ffff;

/// Every table.
const ALL_TABLES: u8 = 0xff;

// The commands of a FLOW_MOD (OpenFlow 1.3, 7.3.4.1).
const ADD: u8 = 0;

const DELETE: u8 = 3;

const DELETE_STRICT: u8 = 4;

/// Adds an entry.
pub fn make_add(alloc: Global, entry: &Entry) -> Result<Message, NoMemory>
    ensures { IfOk result (λ made. made ≡ add entry.now) }
{
    let fields = Fields::from_slice(alloc, entry.key.fields.as_slice())?;
    let instrs = entry.instrs.copy(alloc)?;
    Ok(Message::FlowMod(FlowMod {
        cookie: COOKIE,
        cookie_mask: 0,
        table: entry.key.table,
        command: ADD,
        idle: 0,
        hard: 0,
        priority: entry.key.priority,
        buffer: NONE,
        out_port: NONE,
        out_group: NONE,
        flags: 0,
        fields,
        instrs,
    }))
}

/// Deletes every entry of every table.
pub fn make_delete_all(alloc: Global) -> Message
    ensures { result ≡ delete_all }
{
    Message::FlowMod(FlowMod {
        cookie: 0,
        cookie_mask: 0,
        table: ALL_TABLES,
        command: DELETE,
        idle: 0,
        hard: 0,
        priority: 0,
        buffer: NONE,
        out_port: NONE,
        out_group: NONE,
        flags: 0,
        fields: Fields::new(alloc),
        instrs: Instrs::new(alloc),
    })
}

/// Deletes the entry of a key.
fn make_delete_strict(alloc: Global, key: &Key) -> Result<Message, NoMemory>
    ensures { IfOk result (λ made. made ≡ delete_strict key.now) }
{
    let fields = Fields::from_slice(alloc, key.fields.as_slice())?;
    Ok(Message::FlowMod(FlowMod {
        cookie: 0,
        cookie_mask: 0,
        table: key.table,
        command: DELETE_STRICT,
        idle: 0,
        hard: 0,
        priority: key.priority,
        buffer: NONE,
        out_port: NONE,
        out_group: NONE,
        flags: 0,
        fields,
        instrs: Instrs::new(alloc),
    }))
}

/// The message of a command on flow tables.
pub fn make_command(alloc: Global, command: &Command) -> Result<Message, NoMemory>
    ensures { IfOk result (λ made. made ≡ command_message command.now) }
{
    match command {
        Command::Add(entry) => make_add(alloc, entry),
        Command::DeleteStrict(key) => make_delete_strict(alloc, key),
        Command::DeleteAll => Ok(make_delete_all(alloc)),
    }
}
