//! Writing frames.
ghost use Rattle.std.specs.Prelude.{◌≡◌, ◌+◌, ◌*◌, ◌≤◌, ◌++◌, List, ℕ, length, take, drop};
ghost use Rattle.dnp_link.specs.Stream.{Framed, reading, reading_with_first};
ghost use Rattle.dnp_link.specs.Frame.{octets_with_crc, header, block_count, blocks, frame, frame_length, frame_content};

use crate::checksum::crc;

/// The header block of a frame that carries this.
#[tactic(auto, unfolding(crate::specs::Frame::octets_with_crc))]
pub fn header_block(control: u8, destination: u16, source: u16, user: &[u8]) -> [u8; 10]
    requires { length user.now ≤ 250 }
    ensures { result ≡ octets_with_crc (header (frame_content control destination source user.now)) }
{
    let length = 5 + user.len() as u8;
    let [destination_low, destination_high] = destination.to_le_bytes();
    let [source_low, source_high] = source.to_le_bytes();
    let fields = [
        0x05,
        0x64,
        length,
        control,
        destination_low,
        destination_high,
        source_low,
        source_high,
    ];
    let [crc_low, crc_high] = crc(&fields).to_le_bytes();
    [
        0x05,
        0x64,
        length,
        control,
        destination_low,
        destination_high,
        source_low,
        source_high,
        crc_low,
        crc_high,
    ]
}

/// Writes octets and their CRC at the front of `out`.
#[tactic(auto, using(crate::proofs::Written::written), unfolding(crate::specs::Frame::octets_with_crc))]
fn write_block(octets: &[u8], out: &mut [u8])
    requires { length octets.now + 2 ≤ length out.old }
    ensures { out.new ≡ octets_with_crc octets.now ++ drop (length octets.now + 2) out.old }
{
    let end = octets.len();
    out[..end].copy_from_slice(octets);
    out[end..end + 2].copy_from_slice(&crc(octets).to_le_bytes());
}

/// Writes user data in blocks at the front of `out`, and answers how many octets they take.
fn write_blocks(user: &[u8], out: &mut [u8]) -> usize
    requires { length user.now + 2 * block_count (length user.now) ≤ length out.old }
    ensures length { result ≡ length user.now + 2 * block_count (length user.now) }
    ensures written { out.new ≡ blocks (block_count (length user.now)) user.now ++ drop result out.old }
{
    let mut rest = user;
    let mut at = 0;
    while !rest.is_empty() {
        let (block, behind) = rest.split_at(rest.len().min(16));
        write_block(block, &mut out[at..]);
        at += block.len() + 2;
        rest = behind;
    }
    at
}

/// Writes the frame that carries this at the front of `out`, and answers how many octets it has.
pub fn write_frame(
    control: u8,
    destination: u16,
    source: u16,
    user: &[u8],
    out: &mut [u8; 292],
) -> usize
    requires { length user.now ≤ 250 }
    ensures length { result ≡ frame_length (length user.now) }
    ensures written { out.new ≡ frame (frame_content control destination source user.now) ++ drop result out.old }

    // It is read back, whatever follows it.
    ensures read_back { (behind : List ℕ) → reading (take result out.new ++ behind)
        ≡ reading_with_first (Framed (frame_content control destination source user.now)) (reading behind) }
{
    let header = header_block(control, destination, source, user);
    out[..10].copy_from_slice(&header);
    10 + write_blocks(user, &mut out[10..])
}
