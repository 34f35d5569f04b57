//! Reading the front of a stream.
ghost use Rattle.std.specs.Prelude.{◌≡◌, ◌+◌, ◌-◌, ◌*◌, ◌≤◌, length, drop};
ghost use Rattle.std.specs.Prelude.{IsTrue, IfSome, option_map, if◌then◌else◌};
ghost use Rattle.dnp_link.specs.Frame.{block_count, frame_length, is_sealed as is_sealed_lem, are_sealed, user_data_in_blocks};
ghost use Rattle.dnp_link.specs.Stream.{event_at_front, content_at, user_length, is_bad_start as is_bad_start_lem};
ghost use Rattle.dnp_link.specs.FrameContent.{content, IsPadded};
ghost use Rattle.dnp_link.specs.Front.{event_shown_by, Tells};

use crate::checksum::crc;
use crate::event::SkipReason;
use crate::frame::Frame;

/// The last two octets of a block are the CRC of the others.
#[tactic(auto, unfolding(crate::specs::Frame::is_sealed))]
fn is_sealed(block: &[u8]) -> bool
    requires { 2 ≤ length block.now }
    ensures { result ≡ is_sealed_lem block.now }
{
    let (data, check) = block.split_at(block.len() - 2);
    crc(data) == u16::from_le_bytes([check[0], check[1]])
}

/// The start octets, as far as they are there, begin no frame.
fn is_bad_start(octets: &[u8]) -> bool
    ensures { result ≡ is_bad_start_lem octets.now }
{
    match octets {
        [] => false,
        [first] => *first != 0x05,
        [first, second, ..] => *first != 0x05 || *second != 0x64,
    }
}

/// The length of a frame with this many octets of user data.
pub fn frame_length_of(user: usize) -> usize
    requires { user ≤ 250 }
    ensures { result ≡ frame_length user }
{
    10 + user + 2 * ((user + 15) / 16)
}

/// Checks blocks of user data, and copies what they carry. Where a CRC is wrong, what `user` holds
/// afterwards is left open.
fn read_blocks(octets: &[u8], user: &mut [u8]) -> bool
    requires { length user.old + 2 * block_count (length user.old) ≤ length octets.now }
    ensures right { result ≡ are_sealed (block_count (length user.old)) (length user.old) octets.now }
    ensures copied { IsTrue result
        → user.new ≡ user_data_in_blocks (block_count (length user.old)) (length user.old) octets.now }
{
    let len = user.len();
    let mut rest = octets;
    let mut at = 0;
    while at < len {
        let size = (len - at).min(16);
        let (block, behind) = rest.split_at(size + 2);
        if !is_sealed(block) {
            return false;
        }
        user[at..at + size].copy_from_slice(&block[..size]);
        at += size;
        rest = behind;
    }
    true
}

/// The frame at the front of octets, where the CRC of each of its data blocks is right. The octets
/// of the whole frame are there, and `len` is how many octets of user data LENGTH tells.
pub fn frame_at(octets: &[u8], len: u8) -> Option<Frame>
    requires fits { len ≤ 250 }
    requires told { len ≡ user_length octets.now }
    requires whole { frame_length len ≤ length octets.now }
    ensures carried { option_map content result
        ≡ (if are_sealed (block_count len) len (drop 10 octets.now) then Some (content_at octets.now) else None) }
    ensures padded { IfSome result IsPadded }
{
    let mut user = [0; 250];
    if !read_blocks(&octets[10..], &mut user[..usize::from(len)]) {
        return None;
    }
    Some(Frame {
        control: octets[3],
        destination: u16::from_le_bytes([octets[4], octets[5]]),
        source: u16::from_le_bytes([octets[6], octets[7]]),
        user,
        len,
    })
}

/// What the front of octets shows, before any data block is looked at.
#[derive(Clone, Copy)]
pub enum Front {
    /// Nothing yet.
    Nothing,
    /// No frame begins there.
    Skip(SkipReason),
    /// A right header block, and all octets of a frame with this many octets of user data.
    Whole(u8),
}

/// What the front of octets shows: nothing yet, the first reason why no frame begins there, or as many
/// octets as a frame has, with a right header block.
#[tactic(auto, unfolding(crate::specs::Stream::event_at_front))]
pub fn front_of(octets: &[u8]) -> Front
    ensures shown { event_shown_by result octets.now ≡ event_at_front octets.now }
    ensures tested { Tells result octets.now }
{
    if is_bad_start(octets) {
        return Front::Skip(SkipReason::BadStart);
    }
    if octets.len() < 3 {
        return Front::Nothing;
    }
    if octets[2] < 5 {
        return Front::Skip(SkipReason::BadLength);
    }
    if octets.len() < 10 {
        return Front::Nothing;
    }
    if !is_sealed(&octets[..10]) {
        return Front::Skip(SkipReason::BadHeaderCrc);
    }
    let len = octets[2] - 5;
    if octets.len() < frame_length_of(usize::from(len)) {
        return Front::Nothing;
    }
    Front::Whole(len)
}
