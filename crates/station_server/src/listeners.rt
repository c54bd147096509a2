//! The listeners, and the key under which each is reported.

use crate::fault::ServerFault;
use connection_calls::{Caller, accept};
use feed_connections::Feeds;
use mio::net::{TcpListener, TcpStream, UnixListener};
use mio::{Interest, Poll, Token};
use std::hash::RandomState;
use std::net::{Ipv4Addr, Net, SocketAddr, SocketAddrV4};
use std::random::RandomSource;

/// What a new connection is reported under.
pub(crate) const LISTENER: Token = Token(usize::MAX);
/// What the day's end is reported under.
pub(crate) const WAKER: Token = Token(usize::MAX - 1);
/// What a new connection of the page is reported under.
pub(crate) const PAGE_LISTENER: Token = Token(usize::MAX - 2);
/// What a new connection of the feed is reported under, over TCP.
pub(crate) const FEED_LISTENER: Token = Token(usize::MAX - 3);
/// .. and at the feed's door.
pub(crate) const FEED_DOOR: Token = Token(usize::MAX - 4);

/// Accepts one connection that waits at this listener, if there is one.
pub(crate) fn accept_at(listener: &Option<TcpListener>) -> Caller<TcpStream> {
    match listener {
        None => Caller::None,
        Some(listener) => accept(listener),
    }
}

/// A listener on 127.0.0.1 that is watched under this token, and its port.
pub(crate) fn watch_port<N: Net>(
    net: &N,
    poll: &Poll,
    port: u16,
    token: Token,
) -> Result<(TcpListener, u16), ServerFault> {
    let here = SocketAddr::V4(SocketAddrV4::new(Ipv4Addr::LOCALHOST, port));
    let Ok(mut listener) = TcpListener::bind(net, here) else {
        return Err(ServerFault::of_port(port));
    };
    let port = listener.local_addr()?.port();
    poll.registry()
        .register(&mut listener, token, Interest::READABLE)?;
    Ok((listener, port))
}

/// The page's listener, its port, and the keys of its connections.
pub(crate) fn listen_for_page<N: Net, R: RandomSource>(
    net: &N,
    rt: &R,
    poll: &Poll,
    port: u16,
) -> Result<(TcpListener, u16, RandomState), ServerFault> {
    let keys = RandomState::new(rt)?;
    let (listener, port) = watch_port(net, poll, port, PAGE_LISTENER)?;
    Ok((listener, port, keys))
}

/// The listener for peers on this port, if there is one, and its port.
pub(crate) fn listen_for_peers<N: Net>(
    net: &N,
    poll: &Poll,
    port: Option<u16>,
) -> Result<(Option<TcpListener>, Option<u16>), ServerFault> {
    match port {
        None => Ok((None, None)),
        Some(port) => {
            let (listener, port) = watch_port(net, poll, port, LISTENER)?;
            Ok((Some(listener), Some(port)))
        }
    }
}

/// Peers of the feed come on this port, if there is one, too. It says which one it is.
pub(crate) fn add_feed_port<N: Net>(
    net: &N,
    poll: &Poll,
    port: Option<u16>,
    feeds: &mut Feeds,
) -> Result<Option<u16>, ServerFault> {
    let Some(port) = port else {
        return Ok(None);
    };
    let (listener, port) = watch_port(net, poll, port, FEED_LISTENER)?;
    feeds.listen(listener)?;
    Ok(Some(port))
}

/// Peers of the feed come at this door, if there is one, too.
pub(crate) fn add_feed_door(
    poll: &Poll,
    door: Option<UnixListener>,
    feeds: &mut Feeds,
) -> Result<(), ServerFault> {
    let Some(mut door) = door else {
        return Ok(());
    };
    match poll
        .registry()
        .register(&mut door, FEED_DOOR, Interest::READABLE)
    {
        Ok(()) => {
            feeds.listen_at_door(door)?;
            Ok(())
        }
        Err(_) => Err(ServerFault::NoConnection),
    }
}
