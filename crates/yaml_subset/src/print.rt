ghost use Rattle.std.specs.Prelude.{◌≡◌, ◌++◌, [], ◌∷◌, map, length, IfOk, OnOk, Ok, Some, None, ◌<◌, ◌/◌, ◌%◌, codes};
ghost use Rattle.std.specs.Char.{digit_char};
ghost use Rattle.std.specs.Str.{bytes_eq};
ghost use Rattle.std.specs.List.{list_all};
ghost use Rattle.std.specs.Fmt.{signed_decimal};
ghost use Rattle.yaml_subset.specs.Printed.{escaped, all_escaped, is_plain_byte, begins_with_letter, is_word_of_its_own, is_bool_word, stays_plain, text_scalar, key_scalar, scalar_or_lines, behind_mark, item_lines, pair_lines, piece_of, pair_piece, printed};
ghost use Rattle.yaml_subset.specs.ReadBack.{IsSpelled};
ghost use Rattle.yaml_subset.specs.Grammar.{Reads};

use net_base::{Bytes, NoMemory};
use std::alloc::Global;
use yaml_tree::{Key, Pair, Tree};

fn append_escaped(out: &mut Bytes, b: u8) -> Result<(), NoMemory>
    ensures { OnOk result (out.new ≡ out.old ++ escaped b) }
{
    match b {
        b'\\' => out.append(b"\\\\"),
        b'"' => out.append(b"\\\""),
        b'\n' => out.append(b"\\n"),
        b'\t' => out.append(b"\\t"),
        b'\r' => out.append(b"\\r"),
        _ if b.is_ascii_control() => append_code(out, b),
        _ => out.push(b),
    }
}

fn append_code(out: &mut Bytes, b: u8) -> Result<(), NoMemory>
    ensures { OnOk result (out.new ≡ out.old ++ (codes "\\u00" ++ digit_char (b / 16) ∷ digit_char (b % 16) ∷ [])) }
{
    out.append(b"\\u00")?;
    out.push(hex_char(b / 16))?;
    out.push(hex_char(b % 16))
}

fn hex_char(digit: u8) -> u8
    requires { digit < 16 }
    ensures { result ≡ digit_char digit }
{
    if digit < 10 {
        b'0' + digit
    } else {
        b'a' - 10 + digit
    }
}

fn append_all_escaped(out: &mut Bytes, text: &[u8]) -> Result<(), NoMemory>
    ensures { OnOk result (out.new ≡ out.old ++ all_escaped text.now) }
{
    for b in text {
        append_escaped(out, *b)?;
    }
    Ok(())
}

fn is(word: &[u8], other: &[u8]) -> bool
    ensures { result ≡ bytes_eq word.now other.now }
{
    word == other
}

fn is_word_of_its_own(text: &[u8]) -> bool
    ensures { result ≡ is_word_of_its_own text.now }
{
    is(text, b"null") || is_bool_word(text)
}

fn is_bool_word(text: &[u8]) -> bool
    ensures { result ≡ is_bool_word text.now }
{
    is(text, b"true")
        || is(text, b"True")
        || is(text, b"TRUE")
        || is(text, b"false")
        || is(text, b"False")
        || is(text, b"FALSE")
}

fn begins_with_letter(text: &[u8]) -> bool
    ensures { result ≡ begins_with_letter text.now }
{
    match text {
        [b, ..] => b.is_ascii_alphabetic(),
        [] => false,
    }
}

fn is_plain_byte(b: u8) -> bool
    ensures { result ≡ is_plain_byte b }
{
    b.is_ascii_alphanumeric() || b == b'_' || b == b'-' || b == b'.' || b == b'/'
}

fn all_plain(text: &[u8]) -> bool
    ensures { result ≡ list_all is_plain_byte text.now }
{
    text.iter().all(|b| is_plain_byte(*b))
}

fn stays_plain(text: &[u8]) -> bool
    ensures { result ≡ stays_plain text.now }
{
    begins_with_letter(text) && all_plain(text) && !is_word_of_its_own(text)
}

#[tactic(auto, unfolding(crate::specs::Printed::text_scalar))]
fn append_text(out: &mut Bytes, text: &[u8]) -> Result<(), NoMemory>
    ensures { OnOk result (out.new ≡ out.old ++ text_scalar text.now) }
{
    if stays_plain(text) {
        return out.append(text);
    }
    out.push(b'"')?;
    append_all_escaped(out, text)?;
    out.push(b'"')
}

fn append_int(alloc: Global, out: &mut Bytes, n: i128) -> Result<(), NoMemory>
    ensures { OnOk result (out.new ≡ out.old ++ signed_decimal n) }
{
    let digits = format!(in alloc; "{n}")?;
    out.append(digits.as_str().as_bytes())
}

fn append_key(alloc: Global, out: &mut Bytes, key: &Key) -> Result<(), NoMemory>
    ensures { OnOk result (out.new ≡ out.old ++ key_scalar key.now) }
{
    match key {
        Key::Int(n) => append_int(alloc, out, *n),
        Key::Text(text) => append_text(out, text.as_str().as_bytes()),
    }
}

/// The scalar that a tree is printed as on one line; `None` where it takes lines of its own.
#[tactic(auto, using(crate::proofs::Pieces::piece_rules))]
fn scalar_of(alloc: Global, tree: &Tree) -> Result<Option<Bytes>, NoMemory>
    ensures { IfOk result (λ found. found ≡ (piece_of tree.now).inline) }
{
    let mut out = Bytes::new(alloc);
    match tree {
        Tree::Null => out.append(b"null")?,
        Tree::Bool(true) => out.append(b"true")?,
        Tree::Bool(false) => out.append(b"false")?,
        Tree::Int(n) => append_int(alloc, &mut out, *n)?,
        Tree::Text(text) => append_text(&mut out, text.as_str().as_bytes())?,
        Tree::List(items) => {
            if !items.is_empty() {
                return Ok(None);
            }
            out.append(b"[]")?
        }
        Tree::Map(pairs) => {
            if !pairs.is_empty() {
                return Ok(None);
            }
            out.append(b"{}")?
        }
    }
    Ok(Some(out))
}

fn deeper(alloc: Global, indent: &[u8]) -> Result<Bytes, NoMemory>
    ensures { IfOk result (λ made. made ≡ indent.now ++ codes "  ") }
{
    let mut made = Bytes::from_slice(alloc, indent)?;
    made.append(b"  ")?;
    Ok(made)
}

/// Prints what stands behind the colon or the hyphen of a tree in a block at this indent.
#[cycle(lines)]
fn print_behind(alloc: Global, out: &mut Bytes, tree: &Tree, indent: &[u8]) -> Result<(), NoMemory>
    ensures { OnOk result (out.new ≡ out.old ++ behind_mark (piece_of tree.now) indent.now) }
{
    match scalar_of(alloc, tree)? {
        Some(scalar) => {
            out.push(b' ')?;
            out.append(scalar.as_slice())?;
            out.push(b'\n')
        }
        None => {
            out.push(b'\n')?;
            let indent = deeper(alloc, indent)?;
            print_lines(alloc, out, tree, indent.as_slice())
        }
    }
}

/// Prints the lines of a list or a map at this indent.
#[cycle(lines)]
fn print_lines(alloc: Global, out: &mut Bytes, tree: &Tree, indent: &[u8]) -> Result<(), NoMemory>
    ensures { OnOk result (out.new ≡ out.old ++ (piece_of tree.now).lines indent.now) }
{
    match tree {
        Tree::List(items) => print_items(alloc, out, items.as_slice(), indent),
        Tree::Map(pairs) => print_pairs(alloc, out, pairs.as_slice(), indent),
        _ => Ok(()),
    }
}

#[cycle(lines)]
fn print_items(
    alloc: Global,
    out: &mut Bytes,
    items: &[Tree],
    indent: &[u8],
) -> Result<(), NoMemory>
    ensures { OnOk result (out.new ≡ out.old ++ item_lines indent.now (map piece_of items.now)) }
{
    for item in items {
        out.append(indent)?;
        out.push(b'-')?;
        print_behind(alloc, out, item, indent)?;
    }
    Ok(())
}

#[cycle(lines)]
fn print_pairs(
    alloc: Global,
    out: &mut Bytes,
    pairs: &[Pair],
    indent: &[u8],
) -> Result<(), NoMemory>
    ensures { OnOk result (out.new ≡ out.old ++ pair_lines indent.now (map pair_piece pairs.now)) }
{
    for pair in pairs {
        out.append(indent)?;
        append_key(alloc, out, &pair.key)?;
        out.push(b':')?;
        print_behind(alloc, out, &pair.value, indent)?;
    }
    Ok(())
}

/// The canonical form of a tree: a scalar on a line, or a block with two spaces for each level. It is
/// read back as the tree.
#[tactic(auto, using(crate::proofs::PrintedText::reads_back))]
pub fn print_yaml(alloc: Global, tree: &Tree) -> Result<Bytes, NoMemory>
    ensures canonical { IfOk result (λ text. text ≡ printed tree.now) }
    ensures read_back { IfOk result (λ text. IsSpelled tree.now → Reads text tree.now) }
{
    let mut out = Bytes::new(alloc);
    match scalar_of(alloc, tree)? {
        Some(scalar) => {
            out.append(scalar.as_slice())?;
            out.push(b'\n')?;
        }
        None => print_lines(alloc, &mut out, tree, &[])?,
    }
    Ok(out)
}
