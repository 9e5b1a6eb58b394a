//! The two ends of a connection.

use capture::{Hosts, Path, Side};
use std::net::{IpAddr, SocketAddr};

/// The two ends of a connection.
#[derive(Clone, Copy)]
pub struct Ends {
    pub client: SocketAddr,
    pub server: SocketAddr,
}

impl Ends {
    /// Of a connection of which this program is the one side, at its own address.
    pub fn of(side: Side, own: SocketAddr, peer: SocketAddr) -> Ends {
        match side {
            Side::Client => Ends {
                client: own,
                server: peer,
            },
            Side::Server => Ends {
                client: peer,
                server: own,
            },
        }
    }

    /// From the client to the server, as captures have it: over IPv6 where one of the addresses is
    /// of it.
    pub fn path(&self) -> Path {
        let hosts = match (self.client.ip(), self.server.ip()) {
            (IpAddr::V4(from), IpAddr::V4(to)) => Hosts::V4 {
                from: from.octets(),
                to: to.octets(),
            },
            (from, to) => Hosts::V6 {
                from: long_address(from),
                to: long_address(to),
            },
        };
        Path {
            hosts,
            from_port: self.client.port(),
            to_port: self.server.port(),
        }
    }
}

fn long_address(address: IpAddr) -> [u8; 16] {
    match address {
        IpAddr::V4(short) => short.to_ipv6_mapped().octets(),
        IpAddr::V6(long) => long.octets(),
    }
}
