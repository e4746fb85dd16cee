ghost use Rattle.std.specs.Prelude.{◌≡◌, ◌++◌, IfOk, OnOk};
ghost use Rattle.conf_types.specs.Links.{is_up, is_live, is_far_live, link_from, links_of, links};

use crate::conf::Conf;
use crate::datapath::{Dp, Port, StackEnd};
use crate::state::UpRec;
use net_base::{DpId, Items, NoMemory, PortNo, StackLink, StackLinks};
use std::alloc::Global;

/// Whether a port is up.
pub fn is_up(ups: &[UpRec], dp: DpId, port: PortNo) -> bool
    ensures { result ≡ is_up ups.now dp port }
{
    ups.iter()
        .any(|up| up.dp == dp && up.port.get() == port.get())
}

fn is_live(ups: &[UpRec], dp: DpId, port: &Port) -> bool
    ensures { result ≡ is_live ups.now dp port.now }
{
    port.enabled && is_up(ups, dp, port.no)
}

fn is_far_live(conf: &Conf, ups: &[UpRec], far: StackEnd) -> bool
    ensures { result ≡ is_far_live conf.now ups.now far }
{
    match conf.port(far.dp, far.port) {
        Some(port) => is_live(ups, far.dp, port),
        None => false,
    }
}

// The link that begins at an interface, where it is up.
fn link_from(conf: &Conf, ups: &[UpRec], dp: &Dp, port: &Port) -> Option<StackLink>
    ensures { result ≡ link_from conf.now ups.now dp.now port.now }
{
    match port.stack {
        Some(far) => {
            let link = StackLink {
                a: dp.id,
                a_port: port.no,
                b: far.dp,
                b_port: far.port,
            };
            let begins = link.a.0 < link.b.0;
            let live = is_live(ups, dp.id, port) && is_far_live(conf, ups, far);
            if begins && live { Some(link) } else { None }
        }
        None => None,
    }
}

fn add_links(conf: &Conf, ups: &[UpRec], dp: &Dp, made: &mut StackLinks) -> Result<(), NoMemory>
    ensures { OnOk result (made.new ≡ made.old ++ links_of conf.now ups.now dp.now) }
{
    for port in dp.ports.as_slice() {
        if let Some(link) = link_from(conf, ups, dp, port) {
            made.push(link)?;
        }
    }
    Ok(())
}

impl Conf {
    /// The stack links of which both ends are enabled and up, each once: from the datapath with the
    /// lesser identifier, in the order of the datapaths and their interfaces.
    pub fn links(&self, alloc: Global, ups: &[UpRec]) -> Result<StackLinks, NoMemory>
        ensures { IfOk result (λ made. made ≡ links self.now ups.now) }
    {
        let mut made = Items::new(alloc);
        for dp in self.dps().as_slice() {
            add_links(self, ups, dp, &mut made)?;
        }
        Ok(made)
    }
}
