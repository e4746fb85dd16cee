use super::*;
use fg_links::{Gave, Link, Next, Poller, Took};
use net_base::Ip4;
use std::net::{Ipv4Addr, SocketAddr, TcpListener, TcpStream};
use std::test::Fail;

const LOOPBACK: Ip4 = Ip4(0x7f00_0001);

#[test]
fn a_poller_opens_a_port(rt: HostRuntime) -> Result<(), Fail> {
    let mut poller = MioPoller::new(&rt, LOOPBACK, 0)?;
    assert!(rt; matches!(poller.next(), Next::Moment(_)));
    assert!(rt; matches!(poller.next(), Next::Moment(_)));
    Ok(())
}

#[test]
fn a_link_to_a_port(rt: HostRuntime) -> Result<(), Fail> {
    let listener = TcpListener::bind(&rt, SocketAddr::from((Ipv4Addr::LOCALHOST, 0)))?;
    let stream = TcpStream::connect(&rt, listener.local_addr()?)?;
    stream.set_nonblocking(true)?;
    let mut link = MioLink::new(mio::net::TcpStream::from_std(stream));
    assert!(rt; matches!(link.read(&mut [0; 1]), Took::NotYet));
    assert!(rt; matches!(link.write(b"abc"), Gave::Some(_)));
    Ok(())
}
