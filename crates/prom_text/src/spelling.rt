//! The spelling of samples.

ghost use Rattle.std.specs.Prelude.{◌≡◌, ◌++◌, IfOk, OnOk};
ghost use Rattle.std.specs.Str.{IsUtf8};
ghost use Rattle.prom_text.specs.Samples.{escaped, escaped_byte, label_text, sample_line, type_line};

use itoa::Buffer;
use net_base::{Bytes, NoMemory, Text};
use std::alloc::Global;

fn put_escaped_byte(out: &mut Bytes, byte: u8) -> Result<(), NoMemory>
    ensures { OnOk result (out.new ≡ out.old ++ escaped_byte byte) }
{
    match byte {
        b'\\' => out.append(b"\\\\"),
        b'"' => out.append(b"\\\""),
        b'\n' => out.append(b"\\n"),
        _ => out.push(byte),
    }
}

/// The bytes of a text, escaped, which are a text too.
fn escape_all(alloc: Global, value: &str) -> Result<Bytes, NoMemory>
    ensures value { IfOk result (λ made. made ≡ escaped value.now) }
    ensures text { IfOk result (λ made. IsUtf8 made) }
{
    let bytes = value.as_bytes();
    let mut made = Bytes::new(alloc);
    for byte in bytes {
        put_escaped_byte(&mut made, *byte)?;
    }
    Ok(made)
}

/// The value of a label as it stands between its quotes.
fn escape(alloc: Global, value: &str) -> Result<Text, NoMemory>
    ensures { IfOk result (λ made. made ≡ escaped value.now) }
{
    let made = escape_all(alloc, value)?;
    match str::from_utf8(made.as_slice()) {
        Ok(text) => Text::from_str(alloc, text),
        Err(_) => unreachable!(),
    }
}

/// Adds a label.
#[tactic(auto, unfolding(crate::specs::Samples::label_text))]
pub(crate) fn put_label(
    alloc: Global,
    out: &mut Text,
    name: &str,
    value: &str,
) -> Result<(), NoMemory>
    ensures { OnOk result (out.new ≡ out.old ++ label_text (record { name = name.now; value = value.now })) }
{
    let value = escape(alloc, value)?;
    out.append(name)?;
    out.append("=\"")?;
    out.append(value.as_str())?;
    out.append("\"")
}

/// Adds the line that tells the kind of a metric.
#[tactic(auto, unfolding(crate::specs::Samples::type_line))]
pub(crate) fn put_type(out: &mut Text, name: &str, kind: &str) -> Result<(), NoMemory>
    ensures { OnOk result (out.new ≡ out.old ++ type_line name.now kind.now) }
{
    out.append("# TYPE ")?;
    out.append(name)?;
    out.append(" ")?;
    out.append(kind)?;
    out.append("\n")
}

/// Adds the line of a sample, whose labels are spelled already.
#[tactic(auto, unfolding(crate::specs::Samples::sample_line))]
pub(crate) fn put_sample(
    out: &mut Text,
    name: &str,
    labels: &str,
    value: u64,
) -> Result<(), NoMemory>
    ensures { OnOk result (out.new ≡ out.old ++ sample_line name.now labels.now value) }
{
    out.append(name)?;
    out.append("{")?;
    out.append(labels)?;
    out.append("} ")?;
    out.append(Buffer::new().format(value))?;
    out.append("\n")
}
