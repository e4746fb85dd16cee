ghost use Rattle.std.specs.Prelude.{◌≡◌, ◌+◌, ◌<◌, ◌≤◌, ◌++◌, [], ◌∷◌, length, take};
ghost use Rattle.net_base.specs.Address.{decimal, pair_text, ip4_text, net4_text, mac_text};
ghost use Rattle.std.specs.Char.{digit_char};
ghost use Rattle.std.specs.Str.{IsUtf8};

/// Puts a byte at a place of a buffer, and answers the next place.
pub fn put(buffer: &mut [u8], at: usize, b: u8) -> usize
    requires { at < length buffer.old }
    ensures next { result ≡ at + 1 }
    ensures written { take result buffer.new ≡ take at buffer.old ++ b ∷ [] }
{
    buffer[at] = b;
    at + 1
}

/// Puts the decimal digits of a number at a place of a buffer, and answers the place behind them.
pub fn put_decimal(buffer: &mut [u8], at: usize, n: u8) -> usize
    requires { at + 3 ≤ length buffer.old }
    ensures next { result ≤ at + 3 }
    ensures written { take result buffer.new ≡ take at buffer.old ++ decimal n }
{
    if n < 10 {
        put(buffer, at, b'0' + n)
    } else if n < 100 {
        let at = put(buffer, at, b'0' + n / 10);
        put(buffer, at, b'0' + n % 10)
    } else {
        let at = put(buffer, at, b'0' + n / 100);
        let at = put(buffer, at, b'0' + n / 10 % 10);
        put(buffer, at, b'0' + n % 10)
    }
}

/// The lower-case digit of a number below 16.
pub fn hex_char(digit: u8) -> u8
    requires { digit < 16 }
    ensures { result ≡ digit_char digit }
{
    if digit < 10 {
        b'0' + digit
    } else {
        b'a' - 10 + digit
    }
}

/// Puts two hexadecimal digits at a place of a buffer, and answers the place behind them.
#[tactic(auto, using(crate::proofs::Addresses::pair_utf8))]
pub fn put_pair(buffer: &mut [u8], at: usize, n: u8) -> usize
    requires { at + 2 ≤ length buffer.old }
    ensures next { result ≡ at + 2 }
    ensures written { take result buffer.new ≡ take at buffer.old ++ pair_text n }
    ensures utf8 { IsUtf8 (pair_text n) }
{
    let at = put(buffer, at, hex_char(n / 16));
    put(buffer, at, hex_char(n % 16))
}

/// Puts an IPv4 address at the front of a buffer, and answers the place behind it.
pub fn put_ip4(buffer: &mut [u8], ip: u32) -> usize
    requires { 15 ≤ length buffer.old }
    ensures next { result ≤ 15 }
    ensures written { take result buffer.new ≡ ip4_text ip }
{
    let at = put_decimal(buffer, 0, (ip / 0x100_0000) as u8);
    let at = put(buffer, at, b'.');
    let at = put_decimal(buffer, at, (ip / 0x1_0000 % 256) as u8);
    let at = put(buffer, at, b'.');
    let at = put_decimal(buffer, at, (ip / 0x100 % 256) as u8);
    let at = put(buffer, at, b'.');
    put_decimal(buffer, at, (ip % 256) as u8)
}

/// Puts an address and a length at the front of a buffer, and answers the place behind them.
pub fn put_net4(buffer: &mut [u8], ip: u32, len: u8) -> usize
    requires { 19 ≤ length buffer.old }
    ensures next { result ≤ 19 }
    ensures written { take result buffer.new ≡ net4_text ip len }
{
    let at = put_ip4(buffer, ip);
    let at = put(buffer, at, b'/');
    put_decimal(buffer, at, len)
}

/// Puts an Ethernet address at the front of a buffer.
pub fn put_mac(buffer: &mut [u8], mac: [u8; 6])
    requires { length buffer.old ≡ 17 }
    ensures written { buffer.new ≡ mac_text mac }
    ensures utf8 { IsUtf8 buffer.new }
{
    let mut at = put_pair(buffer, 0, mac[0]);
    for byte in &mac[1..] {
        at = put(buffer, at, b':');
        at = put_pair(buffer, at, *byte);
    }
}
