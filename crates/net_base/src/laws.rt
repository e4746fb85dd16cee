//! Laws of the definitions: each function is empty, and its contract is the law.

ghost use Rattle.std.specs.Prelude.{◌≡◌, ◌<◌, ◌≤◌, ◌^◌, ◌-◌, ◌/◌, ◌↔◌, Bool, true, List, ℕ, length, map, bit_and, Contains};
ghost use Rattle.net_base.specs.declared.address.Mac.{Mac};
ghost use Rattle.net_base.specs.declared.field.FieldId.{FieldId};
ghost use Rattle.net_base.specs.FieldId.{all_fields, number_of, IsInBounds};
ghost use Rattle.std.specs.List.Sorted.{IsStrictlyIncreasing};
ghost use Rattle.net_base.specs.Field.{prefix_in};
ghost use Rattle.std.specs.Cmp.Lexicographic.{pointwise};
ghost use Rattle.net_base.specs.Address6.{SpellsIp6, SpellsNet6, ip6_text, net6_text};
ghost use Rattle.net_base.specs.Address.{SpellsMac, mac_text, ip4_text, net4_text, IsSixBytes, mac_value, mac_of};

/// What is printed for an Ethernet address spells it.
pub fn printed_mac()
    ensures { (mac : List ℕ) → IsSixBytes mac → SpellsMac (mac_text mac) mac }
{}

/// A text spells one Ethernet address.
pub fn one_mac()
    ensures { (text a b : List ℕ) → SpellsMac text a → SpellsMac text b → a ≡ b }
{}

/// A text spells one IPv4 address.
pub fn one_ip4()
    ensures { (a b : ℕ) → a < 2 ^ 32 → b < 2 ^ 32 → ip4_text a ≡ ip4_text b → a ≡ b }
{}

/// A text spells one IPv4 network.
pub fn one_net4()
    ensures { (a m b n : ℕ) → a < 2 ^ 32 → m ≤ 32 → b < 2 ^ 32 → n ≤ 32 → net4_text a m ≡ net4_text b n → (a ≡ b) × (m ≡ n) }
{}

/// A text spells one IPv6 address.
pub fn one_ip6()
    ensures { (text : List ℕ) (a b : ℕ) → SpellsIp6 text a → SpellsIp6 text b → a ≡ b }
{}

/// A text spells one IPv6 network.
pub fn one_net6()
    ensures { (text : List ℕ) (a m b n : ℕ) → SpellsNet6 text a m → SpellsNet6 text b n → (a ≡ b) × (m ≡ n) }
{}

/// What is printed for an IPv6 address or network spells it.
pub fn printed_ip6()
    ensures address { (ip : ℕ) → ip < 2 ^ 128 → SpellsIp6 (ip6_text ip) ip }
    ensures network { (ip len : ℕ) → ip < 2 ^ 128 → len ≤ 128 → SpellsNet6 (net6_text ip len) ip len }
{}

/// An Ethernet address and its number say the same.
#[tactic(auto, using(crate::proofs::Macs::mac_below))]
pub fn a_mac_is_its_value()
    ensures back { (mac : Mac) → IsSixBytes mac.0 → mac_of (mac_value mac) ≡ mac }
    ensures below { (mac : Mac) → IsSixBytes mac.0 → mac_value mac < 2 ^ 48 }
    ensures there { (value : ℕ) → value < 2 ^ 48 → mac_value (mac_of value) ≡ value }
{}

/// Each field stands in the list of all fields, once, since their numbers ascend there.
#[tactic(auto, using(crate::proofs::Rows::is_listed, crate::proofs::Rows::numbers_ascend))]
pub fn every_field_is_listed()
    ensures listed { (id : FieldId) → Contains all_fields id }
    ensures ascending { IsStrictlyIncreasing (map number_of all_fields) }
{}

/// Each row of the table of fields is within its bounds.
#[tactic(auto, using(crate::proofs::Rows::in_bounds))]
pub fn each_row_is_in_bounds()
    ensures { (id : FieldId) → IsInBounds id }
{}

/// No two fields have one number.
#[tactic(auto, using(crate::proofs::Rows::same_field))]
pub fn a_number_has_one_field()
    ensures { (a b : FieldId) → number_of a ≡ number_of b → a ≡ b }
{}

/// An address of so many bits has those of a prefix exactly where it agrees with the field of the
/// prefix, whether it is one of IPv4 or of IPv6.
pub fn a_prefix_takes_what_the_network_holds()
    ensures { (width : ℕ) (id : FieldId) (ip net len : ℕ) → ip < 2 ^ width → net < 2 ^ width → len ≤ width
        → (let field = prefix_in width id net len in
        (ip / 2 ^ (width - len) ≡ net / 2 ^ (width - len)) ↔ (bit_and ip field.mask ≡ bit_and field.value field.mask)) }
{}

/// Where the equality of elements is exact, that of lists is.
pub fn equal_lists_are_one<T>()
    ensures { (same : T → T → Bool) → ((a b : T) → (same a b ≡ true) ↔ (a ≡ b))
        → (xs ys : List T) → (pointwise same xs ys ≡ true) ↔ (xs ≡ ys) }
{}
