//! Numbers in the bytes of a packet.

ghost use Rattle.std.specs.Prelude.{◌≡◌, ◌+◌, ◌≤◌, length, take, drop};
ghost use Rattle.capture.specs.Fields.{be16_at, be32_at, le32_at};

#[tactic(auto, unfolding(crate::specs::Fields::be16_at))]
pub(crate) fn be16_at(bytes: &[u8], at: usize) -> u16
    requires { at + 2 ≤ length bytes.now }
    ensures { result ≡ be16_at bytes.now at }
{
    u16::from_be_bytes([bytes[at], bytes[at + 1]])
}

#[tactic(auto, unfolding(crate::specs::Fields::be32_at))]
pub(crate) fn be32_at(bytes: &[u8], at: usize) -> u32
    requires { at + 4 ≤ length bytes.now }
    ensures { result ≡ be32_at bytes.now at }
{
    u32::from_be_bytes([bytes[at], bytes[at + 1], bytes[at + 2], bytes[at + 3]])
}

#[tactic(auto, unfolding(crate::specs::Fields::le32_at))]
pub(crate) fn le32_at(bytes: &[u8], at: usize) -> u32
    requires { at + 4 ≤ length bytes.now }
    ensures { result ≡ le32_at bytes.now at }
{
    u32::from_le_bytes([bytes[at], bytes[at + 1], bytes[at + 2], bytes[at + 3]])
}

pub(crate) fn v4_address(bytes: &[u8], at: usize) -> [u8; 4]
    requires { at + 4 ≤ length bytes.now }
    ensures { result ≡ take 4 (drop at bytes.now) }
{
    let mut address = [0; 4];
    address.copy_from_slice(&bytes[at..at + 4]);
    address
}

pub(crate) fn v6_address(bytes: &[u8], at: usize) -> [u8; 16]
    requires { at + 16 ≤ length bytes.now }
    ensures { result ≡ take 16 (drop at bytes.now) }
{
    let mut address = [0; 16];
    address.copy_from_slice(&bytes[at..at + 16]);
    address
}
