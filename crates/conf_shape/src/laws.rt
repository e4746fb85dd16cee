//! What the definitions of faults say of texts that spell addresses, whatever reads them; and what
//! stands in the raw configuration, key by key.

ghost use Rattle.std.specs.Prelude.{◌≡◌, ◌<◌, ◌≤◌, ◌^◌, ◌↔◌, ℕ, List, Option, Some, None};
ghost use Rattle.std.specs.List.{AllByRecursion};
ghost use Rattle.net_base.specs.Address.{SpellsMac, ip4_text, net4_text};
ghost use Rattle.net_base.specs.Address6.{SpellsIp6, SpellsNet6};
ghost use Rattle.net_base.specs.Address6Reading.{ip6_of, net6_of};
ghost use Rattle.net_base.specs.AddressReading.{spelled_mac, ip4_of, net4_of};
ghost use Rattle.yaml_tree.specs.declared.tree.Pair.{Pair};
ghost use Rattle.yaml_tree.specs.declared.tree.Tree.{Tree};
ghost use Rattle.conf_shape.specs.declared.kinds.Kind.TheVariants.{One, Map};
ghost use Rattle.conf_shape.specs.declared.kinds.MapKind.{MapKind};
ghost use Rattle.conf_shape.specs.declared.kinds.MapKind.TheVariants.{Top, Datapaths, Datapath, Interfaces, Interface, Vlans, Vlan};
ghost use Rattle.conf_shape.specs.declared.kinds.Scalar.{Scalar};
ghost use Rattle.conf_shape.specs.declared.kinds.Scalar.TheVariants.{Flag, Number};
ghost use Rattle.conf_shape.specs.Faults.{first_fault};
ghost use Rattle.conf_shape.specs.Reads.{value_at, flag_of, number_of, text_of, entries_of, flag_at, number_at, text_at, default_of, default_flag, default_number, default_text};
ghost use Rattle.conf_shape.specs.Written.{IsRight, Takes, IsTextAlone};

/// The Ethernet address that a text gives is the one that it spells.
pub fn a_given_mac_is_spelled()
    ensures { (text mac : List ℕ) → (spelled_mac text ≡ Some mac) ↔ SpellsMac text mac }
{}

/// The IPv4 address that a text gives is the one that it spells.
pub fn a_given_ip4_is_spelled()
    ensures { (text : List ℕ) (ip : ℕ) → ip < 2 ^ 32 → (ip4_of text ≡ Some ip) ↔ (text ≡ ip4_text ip) }
{}

/// The IPv4 network that a text gives is the one that it spells.
pub fn a_given_net4_is_spelled()
    ensures { (text : List ℕ) (ip len : ℕ) → ip < 2 ^ 32 → len ≤ 32 → (net4_of text ≡ Some (ip, len)) ↔ (text ≡ net4_text ip len) }
{}

/// The IPv6 address that a text gives is the one that it spells.
pub fn a_given_ip6_is_spelled()
    ensures { (text : List ℕ) (ip : ℕ) → (ip6_of text ≡ Some ip) ↔ SpellsIp6 text ip }
{}

/// The IPv6 network that a text gives is the one that it spells.
pub fn a_given_net6_is_spelled()
    ensures { (text : List ℕ) (ip len : ℕ) → (net6_of text ≡ Some (ip, len)) ↔ SpellsNet6 text ip len }
{}

/// A document with no fault is a map with none, and so is each map that stands under a key of such a
/// map: a key of the tables, a datapath's name, a number or name of an interface or a VLAN.
pub fn maps_of_a_right_document_are_right()
    ensures document { (t : Tree) → first_fault t ≡ None → IsRight Top (entries_of t) }
    ensures below { (m inner : MapKind) (pairs : List Pair) (name : List ℕ) (t : Tree)
        → IsRight m pairs → value_at name pairs ≡ Some t → Takes m name (Map inner) → IsRight inner (entries_of t) }
    ensures datapaths { (pairs : List Pair) → IsRight Datapaths pairs
        → AllByRecursion (λ p. IsRight Datapath (entries_of p.value)) pairs }
    ensures interfaces { (pairs : List Pair) → IsRight Interfaces pairs
        → AllByRecursion (λ p. (number : Option ℕ) × IsRight (Interface number) (entries_of p.value)) pairs }
    ensures vlans { (pairs : List Pair) → IsRight Vlans pairs
        → AllByRecursion (λ p. (number : Option ℕ) × IsRight (Vlan number) (entries_of p.value)) pairs }
{}

/// What is written under a key of a map with no fault stands in the raw configuration, as a flag, a
/// number in its range, a text.
pub fn a_written_value_stands()
    ensures flags { (m : MapKind) (pairs : List Pair) (name : List ℕ) (t : Tree)
        → IsRight m pairs → value_at name pairs ≡ Some t → Takes m name (One Flag)
        → flag_of t ≡ Some (flag_at m name pairs) }
    ensures numbers { (m : MapKind) (pairs : List Pair) (name : List ℕ) (t : Tree) (low high : ℕ)
        → IsRight m pairs → value_at name pairs ≡ Some t → Takes m name (One (Number low high)) → high < 2 ^ 32
        → number_of low high t ≡ Some (number_at m name pairs) }
    ensures texts { (m : MapKind) (pairs : List Pair) (name : List ℕ) (t : Tree) (scalar : Scalar) (own : List ℕ)
        → IsRight m pairs → value_at name pairs ≡ Some t → Takes m name (One scalar) → IsTextAlone scalar
        → text_of t ≡ Some (text_at m name own pairs) }
{}

/// Where a key isn't written, its default by the tables stands in the raw configuration.
pub fn an_unwritten_key_has_its_default()
    ensures flags { (m : MapKind) (pairs : List Pair) (name : List ℕ)
        → value_at name pairs ≡ None → flag_at m name pairs ≡ default_flag (default_of m name) }
    ensures numbers { (m : MapKind) (pairs : List Pair) (name : List ℕ)
        → value_at name pairs ≡ None → number_at m name pairs ≡ default_number (default_of m name) }
    ensures texts { (m : MapKind) (pairs : List Pair) (name own : List ℕ)
        → value_at name pairs ≡ None → text_at m name own pairs ≡ default_text own (default_of m name) }
{}
