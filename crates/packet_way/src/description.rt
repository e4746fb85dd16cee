ghost use Rattle.std.specs.Prelude.{◌≡◌, ◌++◌, IfOk, OnOk};
ghost use Rattle.std.specs.Option.{option_copied, option_and_then};
ghost use Rattle.conf_types.specs.Configuration.{vlan_with};
ghost use Rattle.packet_way.specs.Admission.{admitted_to};
ghost use Rattle.packet_way.specs.Known.{stack_of};
ghost use Rattle.packet_way.specs.Present.{state_of};
ghost use Rattle.packet_way.specs.Description.{sent_onward, leaving, leaving_in, behind_routing, by_routing, behind_source, in_vlan, admitted, from_edge, is_bare_lldp, from_stack, from_port, sends};

use crate::admission::{admitted_to, tagged_with};
use crate::drops::is_dropped;
use crate::flood::push_flooded;
use crate::known::{Onward, choose_onward, push_to_hop, push_to_port};
use crate::leaving::{push_mirrored, push_to_controller};
use crate::now::Now;
use crate::routes::{Routed, route, route_list};
use crate::source::{Heard, hear};
use crate::verdict::{is_allowed, push_acl_sends};
use conf_types::{Conf, Dp, Port, Vlan};
use net_base::{DpId, NoMemory, PortNo};
use of_match::ether_type::LLDP;
use of_match::{Packet, Sents};
use stack_paths::Paths;
use std::alloc::Global;

fn find_vlan(conf: &Conf, vid: u16) -> Option<&Vlan>
    ensures { option_copied result ≡ vlan_with conf.now.vlans vid }
{
    conf.vlans()
        .as_slice()
        .iter()
        .find(|vlan| vlan.vid.get() == vid)
}

/// The VLAN of the configuration that admits a packet.
fn admitting_vlan<'a>(conf: &'a Conf, port: &Port, packet: &Packet) -> Option<&'a Vlan>
    ensures { option_copied result ≡ option_and_then (vlan_with conf.now.vlans) (admitted_to port.now packet.now) }
{
    match admitted_to(port, packet) {
        Some(vid) => find_vlan(conf, vid.get()),
        None => None,
    }
}

/// Whether it is LLDP without a tag.
fn is_bare_lldp(packet: &Packet) -> bool
    ensures { result ≡ is_bare_lldp packet.now }
{
    match packet.tags.as_slice() {
        [] => packet.eth_type == LLDP,
        [_, ..] => false,
    }
}

/// The interface of a datapath that packets come in by, and what their way from there hangs on.
#[derive(Drop)]
struct Ingress<'a> {
    alloc: Global,
    conf: &'a Conf,
    learned: &'a Now<'a>,
    paths: &'a Paths,
    dp: &'a Dp,
    port: &'a Port,
    ghost right: { paths.now ≡ stack_of conf.now learned.now.ups.now },
}

impl<'a> Ingress<'a> {
    fn push_onward(
        &self,
        out: &mut Sents,
        vlan: &Vlan,
        packet: &Packet,
        onward: Onward,
    ) -> Result<(), NoMemory>
        ensures { OnOk result (out.new ≡ out.old ++ sent_onward self.now.paths.now self.now.dp.now self.now.port.now.no vlan.now packet.now onward) }
    {
        let no = self.port.no;
        match onward {
            Onward::ByPort(port) => match self.dp.port(port) {
                Some(port) => push_to_port(self.alloc, out, self.dp, no, vlan.vid, packet, port),
                None => Ok(()),
            },
            Onward::OverStack(hop) => push_to_hop(self.alloc, out, no, packet, hop),
            Onward::Everywhere => {
                push_flooded(self.alloc, out, self.paths, self.dp, no, vlan, packet)
            }
        }
    }

    /// The destination, or a flood.
    #[tactic(auto, unfolding(crate::specs::Description::leaving))]
    fn push_leaving(&self, out: &mut Sents, vlan: &Vlan, packet: &Packet) -> Result<(), NoMemory>
        ensures { OnOk result (out.new ≡ out.old ++ leaving self.now.conf.now (state_of self.now.learned.now) self.now.dp.now self.now.port.now.no vlan.now packet.now) }
    {
        let hosts = self.learned.hosts;
        let onward = choose_onward(self.conf, hosts, self.paths, self.dp, vlan.vid, packet.dst);
        self.push_onward(out, vlan, packet, onward)
    }

    /// The same in the VLAN with this number; nothing where there is none.
    fn push_leaving_in(&self, out: &mut Sents, vid: u16, packet: &Packet) -> Result<(), NoMemory>
        ensures { OnOk result (out.new ≡ out.old ++ leaving_in self.now.conf.now (state_of self.now.learned.now) self.now.dp.now self.now.port.now.no vid packet.now) }
    {
        match find_vlan(self.conf, vid) {
            Some(vlan) => self.push_leaving(out, vlan, packet),
            None => Ok(()),
        }
    }

    fn push_behind_routing(
        &self,
        out: &mut Sents,
        packet: &Packet,
        routed: Routed,
    ) -> Result<(), NoMemory>
        ensures { OnOk result (out.new ≡ out.old ++ behind_routing self.now.conf.now (state_of self.now.learned.now) self.now.dp.now self.now.port.now.no packet.now routed) }
    {
        match routed {
            Routed::GoesOn { vid, packet } => self.push_leaving_in(out, vid.get(), &packet),
            Routed::ToController => push_to_controller(self.alloc, out, packet),
            Routed::Ends => Ok(()),
        }
    }

    #[tactic(auto, unfolding(crate::specs::Description::by_routing))]
    fn push_by_routing(&self, out: &mut Sents, vlan: &Vlan, packet: &Packet) -> Result<(), NoMemory>
        ensures { OnOk result (out.new ≡ out.old ++ by_routing self.now.conf.now (state_of self.now.learned.now) self.now.dp.now self.now.port.now.no vlan.now packet.now) }
    {
        let neighbours = self.learned.neighbours;
        let group = self.conf.group_number(self.dp.id);
        let items = route_list(self.alloc, self.conf, neighbours, group, vlan.vid)?;
        let routed = route(self.alloc, items.as_slice(), vlan, packet)?;
        self.push_behind_routing(out, packet, routed)
    }

    fn push_behind_source(
        &self,
        out: &mut Sents,
        vlan: &Vlan,
        packet: &Packet,
        heard: Heard,
    ) -> Result<(), NoMemory>
        ensures { OnOk result (out.new ≡ out.old ++ behind_source self.now.conf.now (state_of self.now.learned.now) self.now.dp.now self.now.port.now.no vlan.now packet.now heard) }
    {
        match heard {
            Heard::Ends => Ok(()),
            Heard::GoesOn => self.push_by_routing(out, vlan, packet),
            Heard::IsCopied => {
                push_to_controller(self.alloc, out, packet)?;
                self.push_by_routing(out, vlan, packet)
            }
        }
    }

    #[tactic(auto, unfolding(crate::specs::Description::in_vlan))]
    fn push_in_vlan(&self, out: &mut Sents, vlan: &Vlan, packet: &Packet) -> Result<(), NoMemory>
        ensures { OnOk result (out.new ≡ out.old ++ in_vlan self.now.conf.now (state_of self.now.learned.now) self.now.dp.now self.now.port.now vlan.now packet.now) }
    {
        let no = self.port.no;
        push_acl_sends(self.alloc, out, self.conf, self.dp, &vlan.acls, no, packet)?;
        if !is_allowed(self.conf, &vlan.acls, no, packet) {
            return Ok(());
        }
        let heard = hear(
            self.conf,
            self.learned,
            self.dp,
            self.port,
            vlan,
            packet.src,
        );
        self.push_behind_source(out, vlan, packet, heard)
    }

    #[tactic(auto, unfolding(crate::specs::Description::admitted))]
    fn push_admitted(&self, out: &mut Sents, packet: &Packet, vlan: &Vlan) -> Result<(), NoMemory>
        ensures { OnOk result (out.new ≡ out.old ++ admitted self.now.conf.now (state_of self.now.learned.now) self.now.dp.now self.now.port.now packet.now vlan.now) }
    {
        push_mirrored(self.alloc, out, self.dp, self.port.no, packet)?;
        let tagged = tagged_with(self.alloc, vlan.vid, packet)?;
        self.push_in_vlan(out, vlan, &tagged)
    }

    #[tactic(auto, unfolding(crate::specs::Description::from_edge))]
    fn push_from_edge(&self, out: &mut Sents, packet: &Packet) -> Result<(), NoMemory>
        ensures { OnOk result (out.new ≡ out.old ++ from_edge self.now.conf.now (state_of self.now.learned.now) self.now.dp.now packet.now self.now.port.now) }
    {
        let port = self.port;
        push_acl_sends(
            self.alloc, out, self.conf, self.dp, &port.acls, port.no, packet,
        )?;
        if !is_allowed(self.conf, &port.acls, port.no, packet)
            || is_dropped(self.conf, self.dp, packet)
        {
            return Ok(());
        }
        match admitting_vlan(self.conf, port, packet) {
            Some(vlan) => self.push_admitted(out, packet, vlan),
            None => Ok(()),
        }
    }

    #[tactic(auto, unfolding(crate::specs::Description::from_stack))]
    fn push_from_stack(&self, out: &mut Sents, packet: &Packet) -> Result<(), NoMemory>
        ensures { OnOk result (out.new ≡ out.old ++ from_stack self.now.conf.now (state_of self.now.learned.now) self.now.dp.now packet.now self.now.port.now) }
    {
        if is_bare_lldp(packet) {
            return push_to_controller(self.alloc, out, packet);
        }
        match packet.tags.as_slice() {
            [] => Ok(()),
            [tag, ..] => self.push_leaving_in(out, tag.vid, packet),
        }
    }

    fn push_all(&self, out: &mut Sents, packet: &Packet) -> Result<(), NoMemory>
        ensures { OnOk result (out.new ≡ out.old ++ from_port self.now.conf.now (state_of self.now.learned.now) self.now.dp.now packet.now self.now.port.now) }
    {
        if self.port.is_stack() {
            self.push_from_stack(out, packet)
        } else if self.port.is_accepting() {
            self.push_from_edge(out, packet)
        } else {
            Ok(())
        }
    }
}

/// What a datapath sends of a packet that came in by a port, as the configuration describes it.
/// `paths` are those of the configuration's datapaths, in the order of their names, with the stack
/// links that are up. Nothing is sent where there is no such datapath or interface.
pub fn sends(
    alloc: Global,
    conf: &Conf,
    now: &Now,
    paths: &Paths,
    dp: DpId,
    port: PortNo,
    packet: &Packet,
) -> Result<Sents, NoMemory>
    requires { paths.now ≡ stack_of conf.now now.now.ups.now }
    ensures { IfOk result (λ made. made ≡ sends conf.now (state_of now.now) dp port packet.now) }
{
    let mut out = Sents::new(alloc);
    if let Some(dp) = conf.dp(dp) {
        if let Some(port) = dp.port(port) {
            let ingress = Ingress {
                alloc,
                conf,
                learned: now,
                paths,
                dp,
                port,
            };
            ingress.push_all(&mut out, packet)?;
        }
    }
    Ok(out)
}
