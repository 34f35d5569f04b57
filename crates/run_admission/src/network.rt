//! Which addresses clients may come from.

use std::net::IpAddr;

/// The addresses that begin with the same bits as one.
#[derive(Clone, Copy)]
pub struct Network {
    address: IpAddr,
    bits: u8,
}

impl Network {
    /// Reads an address, or an address and a number of bits with a `/` between; nothing where a text is neither.
    pub fn read(text: &str) -> Option<Network> {
        let (address, bits) = match text.split_once('/') {
            Some((address, bits)) => (address, Some(bits)),
            None => (text, None),
        };
        let address: IpAddr = address.parse().ok()?;
        let most = width(address);
        let bits = match bits {
            Some(bits) => bits.parse::<u8>().ok()?,
            None => most,
        };
        if bits > most {
            return None;
        }
        Some(Network { address, bits })
    }

    /// Whether an address is among them. An address of IPv4 that comes as one of IPv6 is what it carries.
    pub fn has(&self, address: IpAddr) -> bool {
        match (self.address, address.to_canonical()) {
            (IpAddr::V4(own), IpAddr::V4(other)) => {
                begin_alike(&own.octets(), &other.octets(), self.bits)
            }
            (IpAddr::V6(own), IpAddr::V6(other)) => {
                begin_alike(&own.octets(), &other.octets(), self.bits)
            }
            _ => false,
        }
    }
}

/// Whether a client may come from an address, where these are allowed; from everywhere where none is named.
pub(crate) fn allows(networks: &[Network], address: IpAddr) -> bool {
    networks.is_empty() || networks.iter().any(|network| network.has(address))
}

/// How many bits an address has.
fn width(address: IpAddr) -> u8 {
    match address {
        IpAddr::V4(_) => 32,
        IpAddr::V6(_) => 128,
    }
}

/// Whether two addresses begin with the same bits.
fn begin_alike(own: &[u8], other: &[u8], bits: u8) -> bool {
    let mut left = bits;
    for (own, other) in own.iter().zip(other) {
        if left < 8 {
            return left == 0 || (own ^ other) >> (8 - left) == 0;
        }
        if own != other {
            return false;
        }
        left -= 8;
    }
    true
}
