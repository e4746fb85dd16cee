//! Command lines worked out by hand. The functions do nothing: their contracts say what words ask for,
//! and into what parts they fall.

ghost use Rattle.std.specs.Prelude.{◌≡◌, Some, None, [], ◌∷◌, codes};
ghost use Rattle.command_line.specs.declared.meaning.Job.TheVariants as jobs;
ghost use Rattle.command_line.specs.Parts.{parts_of};
ghost use Rattle.command_line.specs.Meaning.{meaning};
ghost use Rattle.command_line.specs.Recorded.{recorded_meaning};

/// The first word is a command.
#[tactic(auto, unfolding(crate::specs::Meaning::meaning))]
pub fn words_that_name_no_command()
    ensures no_word { meaning [] ≡ None }
    ensures unknown { meaning (codes "run" ∷ codes "a" ∷ []) ≡ None }
    ensures option_first { meaning (codes "--x=1" ∷ codes "check" ∷ codes "a" ∷ []) ≡ None }
{}

/// `check FILE..`: one file or more, and no option.
#[tactic(auto, unfolding(crate::specs::Meaning::meaning, crate::specs::Parts::parts_of, crate::specs::Parts::parted))]
pub fn words_behind_check()
    ensures no_file { meaning (codes "check" ∷ []) ≡ None }
    ensures one_file { meaning (codes "check" ∷ codes "a" ∷ []) ≡ Some (jobs.Check (codes "a" ∷ [])) }
    ensures two_files { meaning (codes "check" ∷ codes "a" ∷ codes "b" ∷ []) ≡ Some (jobs.Check (codes "a" ∷ codes "b" ∷ [])) }
    ensures dash { meaning (codes "check" ∷ codes "-x" ∷ []) ≡ None }
    ensures empty { meaning (codes "check" ∷ [] ∷ []) ≡ None }
    ensures joined_option { meaning (codes "check" ∷ codes "--x=1" ∷ codes "a" ∷ []) ≡ None }
    ensures option { meaning (codes "check" ∷ codes "a" ∷ codes "--x" ∷ codes "1" ∷ []) ≡ None }
{}

/// `plan CONFIG DP`: two words, and no option.
#[tactic(auto, unfolding(crate::specs::Meaning::meaning, crate::specs::Parts::parts_of, crate::specs::Parts::parted))]
pub fn words_behind_plan()
    ensures both { meaning (codes "plan" ∷ codes "a" ∷ codes "b" ∷ []) ≡ Some (jobs.Plan (codes "a") (codes "b")) }
    ensures missing { meaning (codes "plan" ∷ codes "a" ∷ []) ≡ None }
    ensures further { meaning (codes "plan" ∷ codes "a" ∷ codes "b" ∷ codes "c" ∷ []) ≡ None }
    ensures option { meaning (codes "plan" ∷ codes "a" ∷ codes "b" ∷ codes "--x=1" ∷ []) ≡ None }
{}

/// `replay CONFIG RECORDING`: two words, and no option.
#[tactic(auto, unfolding(crate::specs::Meaning::meaning, crate::specs::Parts::parts_of, crate::specs::Parts::parted))]
pub fn words_behind_replay()
    ensures both { meaning (codes "replay" ∷ codes "a" ∷ codes "b" ∷ []) ≡ Some (jobs.Replay (codes "a") (codes "b")) }
    ensures missing { meaning (codes "replay" ∷ codes "a" ∷ []) ≡ None }
    ensures further { meaning (codes "replay" ∷ codes "a" ∷ codes "b" ∷ codes "c" ∷ []) ≡ None }
    ensures option { meaning (codes "replay" ∷ codes "--x=1" ∷ codes "a" ∷ codes "b" ∷ []) ≡ None }
{}

/// `serve CONFIG --events N`, with `--reload-ms M` and `--listen A:P` where these aren't the defaults.
#[tactic(auto, unfolding(crate::specs::Meaning::meaning, crate::specs::Parts::parts_of, crate::specs::Parts::parted, net_base::specs::AddressReading::ip4_of, net_base::specs::AddressReading::number_up_to, net_base::specs::AddressReading::number_of))]
pub fn words_behind_serve()
    ensures defaults { meaning (codes "serve" ∷ codes "a" ∷ codes "--events" ∷ codes "3" ∷ [])
        ≡ Some (jobs.Serve (codes "a") 3 1000 (record { ip = record { 0 = 2130706433 }; port = 6653 })) }
    ensures all { meaning (codes "serve" ∷ codes "--listen" ∷ codes "10.1.2.3:1" ∷ codes "--reload-ms=100" ∷ codes "a" ∷ codes "--events=1000000000" ∷ [])
        ≡ Some (jobs.Serve (codes "a") 1000000000 100 (record { ip = record { 0 = 167838211 }; port = 1 })) }
    ensures greatest { meaning (codes "serve" ∷ codes "--reload-ms" ∷ codes "3600000" ∷ codes "--events" ∷ codes "1" ∷ codes "--listen=255.255.255.255:65535" ∷ codes "a" ∷ [])
        ≡ Some (jobs.Serve (codes "a") 1 3600000 (record { ip = record { 0 = 4294967295 }; port = 65535 })) }
    ensures no_events { meaning (codes "serve" ∷ codes "a" ∷ []) ≡ None }
    ensures no_value { meaning (codes "serve" ∷ codes "a" ∷ codes "--events" ∷ []) ≡ None }
    ensures no_event { meaning (codes "serve" ∷ codes "a" ∷ codes "--events=0" ∷ []) ≡ None }
    ensures too_many_events { meaning (codes "serve" ∷ codes "a" ∷ codes "--events=1000000001" ∷ []) ≡ None }
    ensures zero_in_front { meaning (codes "serve" ∷ codes "a" ∷ codes "--events=03" ∷ []) ≡ None }
    ensures sign { meaning (codes "serve" ∷ codes "a" ∷ codes "--events=+3" ∷ []) ≡ None }
    ensures events_twice { meaning (codes "serve" ∷ codes "a" ∷ codes "--events=3" ∷ codes "--events" ∷ codes "3" ∷ []) ≡ None }
    ensures two_dashes { meaning (codes "serve" ∷ codes "a" ∷ codes "--events=3" ∷ codes "--" ∷ []) ≡ None }
    ensures too_often { meaning (codes "serve" ∷ codes "a" ∷ codes "--events=3" ∷ codes "--reload-ms=99" ∷ []) ≡ None }
    ensures too_seldom { meaning (codes "serve" ∷ codes "a" ∷ codes "--events=3" ∷ codes "--reload-ms=3600001" ∷ []) ≡ None }
    ensures no_port { meaning (codes "serve" ∷ codes "a" ∷ codes "--events=3" ∷ codes "--listen=127.0.0.1" ∷ []) ≡ None }
    ensures port_0 { meaning (codes "serve" ∷ codes "a" ∷ codes "--events=3" ∷ codes "--listen=127.0.0.1:0" ∷ []) ≡ None }
    ensures great_port { meaning (codes "serve" ∷ codes "a" ∷ codes "--events=3" ∷ codes "--listen=127.0.0.1:65536" ∷ []) ≡ None }
    ensures zero_in_port { meaning (codes "serve" ∷ codes "a" ∷ codes "--events=3" ∷ codes "--listen=127.0.0.1:06653" ∷ []) ≡ None }
    ensures two_ports { meaning (codes "serve" ∷ codes "a" ∷ codes "--events=3" ∷ codes "--listen=127.0.0.1:1:2" ∷ []) ≡ None }
    ensures no_address { meaning (codes "serve" ∷ codes "a" ∷ codes "--events=3" ∷ codes "--listen=:6653" ∷ []) ≡ None }
    ensures other_option { meaning (codes "serve" ∷ codes "a" ∷ codes "--events=3" ∷ codes "--dp=1" ∷ []) ≡ None }
    ensures no_file { meaning (codes "serve" ∷ codes "--events=3" ∷ []) ≡ None }
    ensures two_files { meaning (codes "serve" ∷ codes "a" ∷ codes "b" ∷ codes "--events=3" ∷ []) ≡ None }
{}

/// `gauge GAUGE_CONFIG RECORDING`: two words, and no option.
#[tactic(auto, unfolding(crate::specs::Meaning::meaning, crate::specs::Parts::parts_of, crate::specs::Parts::parted))]
pub fn words_behind_gauge()
    ensures both { meaning (codes "gauge" ∷ codes "a" ∷ codes "b" ∷ []) ≡ Some (jobs.Gauge (codes "a") (codes "b")) }
    ensures none { meaning (codes "gauge" ∷ []) ≡ None }
    ensures missing { meaning (codes "gauge" ∷ codes "a" ∷ []) ≡ None }
    ensures further { meaning (codes "gauge" ∷ codes "a" ∷ codes "b" ∷ codes "c" ∷ []) ≡ None }
    ensures option { meaning (codes "gauge" ∷ codes "a" ∷ codes "b" ∷ codes "--x=1" ∷ []) ≡ None }
    ensures events { meaning (codes "gauge" ∷ codes "a" ∷ codes "b" ∷ codes "--events" ∷ codes "3" ∷ []) ≡ None }
{}

/// `gauge-serve GAUGE_CONFIG --events N`, with `--listen A:P` where this isn't the default.
#[tactic(auto, unfolding(crate::specs::Meaning::meaning, crate::specs::Parts::parts_of, crate::specs::Parts::parted, net_base::specs::AddressReading::ip4_of, net_base::specs::AddressReading::number_up_to, net_base::specs::AddressReading::number_of))]
pub fn words_behind_gauge_serve()
    ensures apart { meaning (codes "gauge-serve" ∷ codes "a" ∷ codes "--events" ∷ codes "1" ∷ [])
        ≡ Some (jobs.GaugeServe (codes "a") 1 (record { ip = record { 0 = 2130706433 }; port = 6654 })) }
    ensures joined { meaning (codes "gauge-serve" ∷ codes "--events=1000000000" ∷ codes "a" ∷ [])
        ≡ Some (jobs.GaugeServe (codes "a") 1000000000 (record { ip = record { 0 = 2130706433 }; port = 6654 })) }
    ensures listen_apart { meaning (codes "gauge-serve" ∷ codes "--listen" ∷ codes "10.1.2.3:1" ∷ codes "a" ∷ codes "--events=3" ∷ [])
        ≡ Some (jobs.GaugeServe (codes "a") 3 (record { ip = record { 0 = 167838211 }; port = 1 })) }
    ensures listen_joined { meaning (codes "gauge-serve" ∷ codes "--events" ∷ codes "3" ∷ codes "a" ∷ codes "--listen=255.255.255.255:65535" ∷ [])
        ≡ Some (jobs.GaugeServe (codes "a") 3 (record { ip = record { 0 = 4294967295 }; port = 65535 })) }
    ensures no_events { meaning (codes "gauge-serve" ∷ codes "a" ∷ codes "--listen=127.0.0.1:6654" ∷ []) ≡ None }
    ensures no_value { meaning (codes "gauge-serve" ∷ codes "a" ∷ codes "--events" ∷ []) ≡ None }
    ensures no_event { meaning (codes "gauge-serve" ∷ codes "a" ∷ codes "--events=0" ∷ []) ≡ None }
    ensures too_many_events { meaning (codes "gauge-serve" ∷ codes "a" ∷ codes "--events=1000000001" ∷ []) ≡ None }
    ensures events_twice { meaning (codes "gauge-serve" ∷ codes "a" ∷ codes "--events=3" ∷ codes "--events" ∷ codes "3" ∷ []) ≡ None }
    ensures reload { meaning (codes "gauge-serve" ∷ codes "a" ∷ codes "--events=3" ∷ codes "--reload-ms" ∷ codes "1000" ∷ []) ≡ None }
    ensures reload_joined { meaning (codes "gauge-serve" ∷ codes "a" ∷ codes "--reload-ms=1000" ∷ codes "--events=3" ∷ []) ≡ None }
    ensures port_0 { meaning (codes "gauge-serve" ∷ codes "a" ∷ codes "--events=3" ∷ codes "--listen=127.0.0.1:0" ∷ []) ≡ None }
    ensures great_port { meaning (codes "gauge-serve" ∷ codes "a" ∷ codes "--events=3" ∷ codes "--listen=127.0.0.1:65536" ∷ []) ≡ None }
    ensures no_file { meaning (codes "gauge-serve" ∷ codes "--events=3" ∷ []) ≡ None }
    ensures two_files { meaning (codes "gauge-serve" ∷ codes "a" ∷ codes "b" ∷ codes "--events=3" ∷ []) ≡ None }
{}

/// `bench N`: one number from 1 to 10,000, and no option.
#[tactic(auto, unfolding(crate::specs::Meaning::meaning, crate::specs::Parts::parts_of, crate::specs::Parts::parted))]
pub fn words_behind_bench()
    ensures least { meaning (codes "bench" ∷ codes "1" ∷ []) ≡ Some (jobs.Bench 1) }
    ensures most { meaning (codes "bench" ∷ codes "10000" ∷ []) ≡ Some (jobs.Bench 10000) }
    ensures none { meaning (codes "bench" ∷ []) ≡ None }
    ensures no_host { meaning (codes "bench" ∷ codes "0" ∷ []) ≡ None }
    ensures too_many { meaning (codes "bench" ∷ codes "10001" ∷ []) ≡ None }
    ensures zero_in_front { meaning (codes "bench" ∷ codes "03" ∷ []) ≡ None }
    ensures sign { meaning (codes "bench" ∷ codes "+3" ∷ []) ≡ None }
    ensures no_number { meaning (codes "bench" ∷ codes "three" ∷ []) ≡ None }
    ensures further { meaning (codes "bench" ∷ codes "3" ∷ codes "3" ∷ []) ≡ None }
    ensures option { meaning (codes "bench" ∷ codes "3" ∷ codes "--events=3" ∷ []) ≡ None }
{}

/// `trace CONFIG RECORDING DP PORT FRAME`: five words, of which the fourth is a port's number and the fifth the
/// digits of a frame, and no option.
#[tactic(auto, unfolding(crate::specs::Meaning::meaning, crate::specs::Parts::parts_of, crate::specs::Parts::parted))]
pub fn words_behind_trace()
    ensures both_cases { meaning (codes "trace" ∷ codes "a" ∷ codes "r" ∷ codes "sw1" ∷ codes "4294967040" ∷ codes "ffFFffffffff0200000000010800" ∷ [])
        ≡ Some (jobs.Trace (codes "a") (codes "r") (codes "sw1") 4294967040 (255 ∷ 255 ∷ 255 ∷ 255 ∷ 255 ∷ 255 ∷ 2 ∷ 0 ∷ 0 ∷ 0 ∷ 0 ∷ 1 ∷ 8 ∷ 0 ∷ [])) }
    ensures no_port { meaning (codes "trace" ∷ codes "a" ∷ codes "r" ∷ codes "sw1" ∷ codes "0" ∷ codes "ffffffffffff0200000000010800" ∷ []) ≡ None }
    ensures reserved_port { meaning (codes "trace" ∷ codes "a" ∷ codes "r" ∷ codes "sw1" ∷ codes "4294967041" ∷ codes "ffffffffffff0200000000010800" ∷ []) ≡ None }
    ensures hexadecimal_port { meaning (codes "trace" ∷ codes "a" ∷ codes "r" ∷ codes "sw1" ∷ codes "0x1" ∷ codes "ffffffffffff0200000000010800" ∷ []) ≡ None }
    ensures odd_digits { meaning (codes "trace" ∷ codes "a" ∷ codes "r" ∷ codes "sw1" ∷ codes "1" ∷ codes "ffffffffffff02000000000108000" ∷ []) ≡ None }
    ensures no_digit { meaning (codes "trace" ∷ codes "a" ∷ codes "r" ∷ codes "sw1" ∷ codes "1" ∷ codes "ffffffffffff020000000001080g" ∷ []) ≡ None }
    ensures no_type { meaning (codes "trace" ∷ codes "a" ∷ codes "r" ∷ codes "sw1" ∷ codes "1" ∷ codes "ffffffffffff02000000000108" ∷ []) ≡ None }
    ensures tag_alone { meaning (codes "trace" ∷ codes "a" ∷ codes "r" ∷ codes "sw1" ∷ codes "1" ∷ codes "ffffffffffff02000000000181000064" ∷ []) ≡ None }
    ensures empty { meaning (codes "trace" ∷ codes "a" ∷ codes "r" ∷ codes "sw1" ∷ codes "1" ∷ [] ∷ []) ≡ None }
    ensures missing { meaning (codes "trace" ∷ codes "a" ∷ codes "r" ∷ codes "sw1" ∷ codes "1" ∷ []) ≡ None }
    ensures further { meaning (codes "trace" ∷ codes "a" ∷ codes "r" ∷ codes "sw1" ∷ codes "1" ∷ codes "ffffffffffff0200000000010800" ∷ codes "b" ∷ []) ≡ None }
    ensures option { meaning (codes "trace" ∷ codes "a" ∷ codes "r" ∷ codes "sw1" ∷ codes "1" ∷ codes "ffffffffffff0200000000010800" ∷ codes "--x=1" ∷ []) ≡ None }
{}

/// `walk` with the same words.
#[tactic(auto, unfolding(crate::specs::Meaning::meaning, crate::specs::Parts::parts_of, crate::specs::Parts::parted))]
pub fn words_behind_walk()
    ensures tagged { meaning (codes "walk" ∷ codes "a" ∷ codes "r" ∷ codes "sw1" ∷ codes "1" ∷ codes "ffffffffffff020000000001810000640800" ∷ [])
        ≡ Some (jobs.Walk (codes "a") (codes "r") (codes "sw1") 1 (255 ∷ 255 ∷ 255 ∷ 255 ∷ 255 ∷ 255 ∷ 2 ∷ 0 ∷ 0 ∷ 0 ∷ 0 ∷ 1 ∷ 129 ∷ 0 ∷ 0 ∷ 100 ∷ 8 ∷ 0 ∷ [])) }
    ensures no_port { meaning (codes "walk" ∷ codes "a" ∷ codes "r" ∷ codes "sw1" ∷ codes "01" ∷ codes "ffffffffffff0200000000010800" ∷ []) ≡ None }
    ensures no_type { meaning (codes "walk" ∷ codes "a" ∷ codes "r" ∷ codes "sw1" ∷ codes "1" ∷ codes "ffffffffffff02000000000108" ∷ []) ≡ None }
    ensures none { meaning (codes "walk" ∷ []) ≡ None }
    ensures missing { meaning (codes "walk" ∷ codes "a" ∷ codes "r" ∷ codes "sw1" ∷ codes "1" ∷ []) ≡ None }
    ensures option { meaning (codes "walk" ∷ codes "--dp=sw1" ∷ codes "a" ∷ codes "r" ∷ codes "sw1" ∷ codes "1" ∷ codes "ffffffffffff0200000000010800" ∷ []) ≡ None }
{}

/// `bgp CONFIG ROUTER RECORDING`: three words, and no option.
#[tactic(auto, unfolding(crate::specs::Meaning::meaning, crate::specs::Parts::parts_of, crate::specs::Parts::parted))]
pub fn words_behind_bgp()
    ensures all { meaning (codes "bgp" ∷ codes "a" ∷ codes "b" ∷ codes "c" ∷ []) ≡ Some (jobs.Bgp (codes "a") (codes "b") (codes "c")) }
    ensures missing { meaning (codes "bgp" ∷ codes "a" ∷ codes "b" ∷ []) ≡ None }
    ensures further { meaning (codes "bgp" ∷ codes "a" ∷ codes "b" ∷ codes "c" ∷ codes "d" ∷ []) ≡ None }
    ensures option { meaning (codes "bgp" ∷ codes "a" ∷ codes "--events=3" ∷ codes "b" ∷ codes "c" ∷ []) ≡ None }
{}

/// `bgp-serve CONFIG ROUTER --events N`, with `--listen A:P` where this isn't the default.
#[tactic(auto, unfolding(crate::specs::Meaning::meaning, crate::specs::Parts::parts_of, crate::specs::Parts::parted, net_base::specs::AddressReading::ip4_of, net_base::specs::AddressReading::number_up_to, net_base::specs::AddressReading::number_of))]
pub fn words_behind_bgp_serve()
    ensures apart { meaning (codes "bgp-serve" ∷ codes "a" ∷ codes "--events" ∷ codes "1" ∷ codes "b" ∷ [])
        ≡ Some (jobs.BgpServe (codes "a") (codes "b") 1 (record { ip = record { 0 = 2130706433 }; port = 9179 })) }
    ensures listen { meaning (codes "bgp-serve" ∷ codes "--listen=10.1.2.3:179" ∷ codes "a" ∷ codes "b" ∷ codes "--events=1000000000" ∷ [])
        ≡ Some (jobs.BgpServe (codes "a") (codes "b") 1000000000 (record { ip = record { 0 = 167838211 }; port = 179 })) }
    ensures no_events { meaning (codes "bgp-serve" ∷ codes "a" ∷ codes "b" ∷ []) ≡ None }
    ensures no_event { meaning (codes "bgp-serve" ∷ codes "a" ∷ codes "b" ∷ codes "--events=0" ∷ []) ≡ None }
    ensures too_many_events { meaning (codes "bgp-serve" ∷ codes "a" ∷ codes "b" ∷ codes "--events=1000000001" ∷ []) ≡ None }
    ensures reload { meaning (codes "bgp-serve" ∷ codes "a" ∷ codes "b" ∷ codes "--events=3" ∷ codes "--reload-ms=1000" ∷ []) ≡ None }
    ensures port_0 { meaning (codes "bgp-serve" ∷ codes "a" ∷ codes "b" ∷ codes "--events=3" ∷ codes "--listen=127.0.0.1:0" ∷ []) ≡ None }
    ensures no_router { meaning (codes "bgp-serve" ∷ codes "a" ∷ codes "--events=3" ∷ []) ≡ None }
    ensures further { meaning (codes "bgp-serve" ∷ codes "a" ∷ codes "b" ∷ codes "c" ∷ codes "--events=3" ∷ []) ≡ None }
{}

/// Options stand anywhere, in either spelling.
#[tactic(auto, unfolding(crate::specs::Parts::parts_of, crate::specs::Parts::parted))]
pub fn options_among_words()
    ensures both_spellings { parts_of (codes "a" ∷ codes "--x" ∷ codes "1" ∷ codes "b" ∷ codes "--y=2" ∷ [])
        ≡ Some (record { plain = codes "a" ∷ codes "b" ∷ []; options = record { name = codes "x"; value = codes "1" } ∷ record { name = codes "y"; value = codes "2" } ∷ [] }) }
    ensures first_sign_cuts { parts_of (codes "--x=1=2" ∷ []) ≡ Some (record { plain = []; options = record { name = codes "x"; value = codes "1=2" } ∷ [] }) }
    ensures empty_value { parts_of (codes "--x=" ∷ []) ≡ Some (record { plain = []; options = record { name = codes "x"; value = [] } ∷ [] }) }
    ensures any_value { parts_of (codes "--x" ∷ codes "--y=1" ∷ []) ≡ Some (record { plain = []; options = record { name = codes "x"; value = codes "--y=1" } ∷ [] }) }
    ensures no_value { parts_of (codes "a" ∷ codes "--x" ∷ []) ≡ None }
    ensures twice { parts_of (codes "--x=1" ∷ codes "--x" ∷ codes "2" ∷ []) ≡ None }
    ensures two_dashes { parts_of (codes "--" ∷ codes "a" ∷ []) ≡ None }
    ensures no_name { parts_of (codes "--=1" ∷ []) ≡ None }
    ensures one_dash { parts_of (codes "-" ∷ []) ≡ None }
    ensures empty_word { parts_of (codes "a" ∷ [] ∷ []) ≡ None }
{}

/// `faucet_recorded`: one configuration file, the options of `serve`, and the file of the recording.
#[tactic(auto, unfolding(crate::specs::Recorded::recorded_meaning, crate::specs::Meaning::meaning, crate::specs::Parts::parts_of, crate::specs::Parts::parted))]
pub fn recorded_words()
    ensures all { recorded_meaning (codes "--record" ∷ codes "r" ∷ codes "a" ∷ codes "--events=3" ∷ codes "--reload-ms=100" ∷ codes "--listen=10.0.0.1:1" ∷ [])
        ≡ Some (record { config = codes "a"; events = 3; reload_ms = 100; listen = record { ip = record { 0 = 167772161 }; port = 1 }; record_file = codes "r" }) }
    ensures defaults { recorded_meaning (codes "a" ∷ codes "--events=3" ∷ codes "--record=r" ∷ [])
        ≡ Some (record { config = codes "a"; events = 3; reload_ms = 1000; listen = record { ip = record { 0 = 2130706433 }; port = 6653 }; record_file = codes "r" }) }
    ensures no_recording { recorded_meaning (codes "a" ∷ codes "--events=3" ∷ []) ≡ None }
    ensures two_recordings { recorded_meaning (codes "a" ∷ codes "--events=3" ∷ codes "--record=r" ∷ codes "--record=r" ∷ []) ≡ None }
    ensures no_events { recorded_meaning (codes "a" ∷ codes "--record=r" ∷ []) ≡ None }
    ensures command_word { recorded_meaning (codes "serve" ∷ codes "a" ∷ codes "--events=3" ∷ codes "--record=r" ∷ []) ≡ None }
    ensures other_option { recorded_meaning (codes "a" ∷ codes "--events=3" ∷ codes "--record=r" ∷ codes "--dp=1" ∷ []) ≡ None }
    ensures no_file { recorded_meaning (codes "--events=3" ∷ codes "--record=r" ∷ []) ≡ None }
    ensures not_for_serve { meaning (codes "serve" ∷ codes "a" ∷ codes "--events=3" ∷ codes "--record=r" ∷ []) ≡ None }
{}
