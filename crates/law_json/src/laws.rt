//! The law: the function is empty, and its contract is the law.

ghost use Rattle.std.specs.Prelude.{◌≡◌};
ghost use Rattle.conf_types.specs.Configuration.{Configuration};
ghost use Rattle.conf_types.specs.Valid.{IsValid};
ghost use Rattle.conf_json.specs.Text.{json_text};
ghost use Rattle.law_json.specs.Agree.{Agree, HasCountedRules};

/// Two valid configurations whose JSON texts are equal agree in all that is shown: each datapath with each of its
/// interfaces, each VLAN, the number of rules of each ACL, and the VLANs of each router.
pub fn equal_texts_show_the_same()
    ensures { (a b : Configuration) → IsValid a → IsValid b → HasCountedRules a → HasCountedRules b
        → json_text a ≡ json_text b → Agree a b }
{}
