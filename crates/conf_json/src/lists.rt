//! Lists, and values that need not be there.

ghost use Rattle.std.specs.Prelude.{◌≡◌, [], decimal, fold, map, nat_lt, IfOk, OnOk};
ghost use Rattle.std.specs.List.{prefix_len};
ghost use Rattle.conf_json.specs.Json.{list, with_member};
ghost use Rattle.conf_json.specs.Text.{with_number, numbers_text, names_text, number_or_null};

use crate::value::{Array, Json, Object};
use itoa::Buffer;
use net_base::{Items, NoMemory, PortNo, Text, Vid};
use std::alloc::Global;

/// Where a number stands among ascending ones: behind all that are less.
fn place_of(numbers: &[u32], number: u32) -> usize
    ensures { result ≡ prefix_len (λ m. nat_lt m number) numbers.now }
{
    for (i, other) in numbers.iter().enumerate() {
        if *other >= number {
            return i;
        }
    }
    numbers.len()
}

fn put_number(numbers: &mut Items<u32>, number: u32) -> Result<(), NoMemory>
    ensures { OnOk result (numbers.new ≡ with_number numbers.old number) }
{
    let at = place_of(numbers.as_slice(), number);
    numbers.insert(at, number)
}

fn decimals(alloc: Global, numbers: &[u32]) -> Result<Json, NoMemory>
    ensures { IfOk result (λ made. made ≡ list (map decimal numbers.now)) }
{
    let mut made = Array::new(alloc);
    for number in numbers {
        made.push(Json::number(u64::from(*number)))?;
    }
    Ok(made.into_json())
}

/// VLANs, ascending.
pub(crate) fn make_vids(alloc: Global, vids: &[Vid]) -> Result<Json, NoMemory>
    ensures { IfOk result (λ made. made ≡ numbers_text vids.now) }
{
    let mut numbers = Items::new(alloc);
    for vid in vids {
        put_number(&mut numbers, u32::from(vid.get()))?;
    }
    decimals(alloc, numbers.as_slice())
}

/// Numbers of interfaces, ascending.
pub(crate) fn make_port_nos(alloc: Global, ports: &[PortNo]) -> Result<Json, NoMemory>
    ensures { IfOk result (λ made. made ≡ numbers_text ports.now) }
{
    let mut numbers = Items::new(alloc);
    for port in ports {
        put_number(&mut numbers, port.get())?;
    }
    decimals(alloc, numbers.as_slice())
}

/// Names, as they stand.
pub(crate) fn make_names(alloc: Global, names: &[Text]) -> Result<Json, NoMemory>
    ensures { IfOk result (λ made. made ≡ names_text names.now) }
{
    let mut made = Array::new(alloc);
    for name in names {
        made.push(Json::text(alloc, name.as_str())?)?;
    }
    Ok(made.into_json())
}

pub(crate) fn number_or_null(number: Option<u32>) -> Json
    ensures { result ≡ number_or_null number }
{
    match number {
        Some(number) => Json::number(u64::from(number)),
        None => Json::null(),
    }
}

pub(crate) fn vid_or_null(vid: Option<Vid>) -> Json
    ensures { result ≡ number_or_null vid }
{
    match vid {
        Some(vid) => Json::number(u64::from(vid.get())),
        None => Json::null(),
    }
}

/// Puts a member under a number.
pub(crate) fn put_numbered(
    object: &mut Object,
    alloc: Global,
    number: u32,
    json: Json,
) -> Result<(), NoMemory>
    ensures { OnOk result (object.new ≡ with_member object.old (decimal number, json)) }
{
    let mut buffer = Buffer::new();
    object.put(alloc, buffer.format(number), json)
}
