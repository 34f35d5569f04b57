//! Calls that take memory, at their largest sizes and where nothing comes of it: no contract tells memory that ran out
//! from a limit of the code.
ghost use Rattle.std.specs.Prelude.{◌≤◌, length};

use crate::checks::{same, same_list};
use dnp_app::Response;
use dnp_link::laws::events_of;
use dnp_link::{LinkEvent, LinkFeed, SkipReason, write_frame};
use dnp_objects::{Header, headers};
use dnp_points::reports;
use dnp_receive::{fragments_of, responses_of};
use dnp_transport::{Assembler, FRAGMENT_LIMIT, Taken, segments};
use gw_model::Report;
use iec_apci::laws::apdus_of;
use iec_apci::{Apdu, ApduFeed};
use iec_window::Window;
use std::alloc::Global;
use std::process::Abort;
use std::test::Fail;

/// Some octets, and then others so many times.
fn repeat(alloc: Global, front: &[u8], octets: &[u8], times: u16) -> Result<Vec<u8>, Fail> {
    let mut all = Vec::from_slice(alloc, front)?;
    for _ in 0..times {
        all.extend_from_slice(octets)?;
    }
    Ok(all)
}

/// The headers of a part of outstation 0, and what it reports.
fn read(alloc: Global, part: &[u8]) -> Result<(Vec<Header>, Vec<Report>), Fail> {
    let found = headers(alloc, part)?;
    let told = reports(alloc, 0, &found, part)?;
    Ok((found, told))
}

/// So many headers has a part, so many objects the last of them, so many reports, and this index the last of these.
fn check_part(
    rt: &(impl Abort + AllocGlobal),
    part: &[u8],
    wanted: (usize, u32, usize, u16),
) -> Result<(), Fail> {
    let (found, told) = read(rt.alloc(), part)?;
    match (found.last(), told.last()) {
        (Some(header), Some(report)) => {
            let counts = (found.len(), header.count, told.len(), report.key.index);
            same(rt, &counts, &wanted);
        }
        _ => assert!(rt; false),
    }
    Ok(())
}

/// 511 headers in 2,048 octets, the last with two events.
#[test]
fn most_headers(rt: HostRuntime) -> Result<(), Fail> {
    let mut part = repeat(rt.alloc(), b"", b"\x33\x02\x07\x00", 510)?;
    part.extend_from_slice(b"\x02\x01\x17\x02\x05\x81\x06\x81")?;
    same(&rt, &part.len(), &2048);
    check_part(&rt, &part, (511, 2, 2, 6))
}

/// One header of 65,536 inputs that are on.
#[test]
fn most_objects(rt: HostRuntime) -> Result<(), Fail> {
    let part = repeat(rt.alloc(), b"\x01\x01\x01\x00\x00\xFF\xFF", b"\xFF", 8192)?;
    check_part(&rt, &part, (1, 65_536, 65_536, 65_535))
}

/// The response to a master with 16,296 inputs, some of them on.
fn largest_fragment() -> [u8; FRAGMENT_LIMIT] {
    let mut fragment = [0; FRAGMENT_LIMIT];
    for place in 0..FRAGMENT_LIMIT {
        fragment[place] = (place % 251) as u8;
    }
    let front = [
        0xC0, 0x81, 0x00, 0x00, 0x01, 0x01, 0x01, 0x00, 0x00, 0xA7, 0x3F,
    ];
    for (octet, value) in fragment.iter_mut().zip(front) {
        *octet = value;
    }
    fragment
}

/// The frame of a segment from station 1 to station 1024.
fn add_frame(frames: &mut Vec<u8>, segment: &[u8]) -> Result<(), Fail>
    requires { length segment.now ≤ 250 }
{
    let mut frame = [0; 292];
    let octets = write_frame(0x44, 1024, 1, segment, &mut frame);
    frames.extend_from_slice(&frame[..octets])?;
    Ok(())
}

/// A fragment in frames.
fn frames_of(alloc: Global, fragment: &[u8]) -> Result<Vec<u8>, Fail>
    requires { length fragment.now ≤ 2048 }
{
    let mut frames = Vec::new(alloc);
    for segment in segments(fragment, 60) {
        add_frame(&mut frames, segment.octets())?;
    }
    Ok(frames)
}

/// So many of a fragment in frames, one after another.
fn stream_of(alloc: Global, fragment: &[u8; FRAGMENT_LIMIT], count: u16) -> Result<Vec<u8>, Fail> {
    let frames = frames_of(alloc, fragment)?;
    repeat(alloc, b"", &frames, count)
}

fn count_events(alloc: Global, pieces: &[&[u8]]) -> Result<usize, Fail> {
    Ok(events_of(alloc, pieces)?.len())
}

fn count_fragments(alloc: Global, pieces: &[&[u8]]) -> Result<usize, Fail> {
    Ok(fragments_of(alloc, pieces, 1024, 1)?.len())
}

fn read_responses(alloc: Global, pieces: &[&[u8]]) -> Result<Vec<Response>, Fail> {
    Ok(responses_of(alloc, 0, pieces, 1024, 1)?)
}

/// Pieces hold 27 of a response, each in nine frames, and 439 octets that begin none.
fn check_stream(
    rt: &(impl Abort + AllocGlobal),
    pieces: &[&[u8]],
    fragment: &[u8],
) -> Result<(), Fail> {
    same(rt, &count_events(rt.alloc(), pieces)?, &682);
    same(rt, &count_fragments(rt.alloc(), pieces)?, &27);
    let responses = read_responses(rt.alloc(), pieces)?;
    same(rt, &responses.len(), &27);
    for response in &responses {
        same_list(rt, response.octets(), fragment);
        same(rt, &response.reports().len(), &16_296);
    }
    Ok(())
}

/// 65,536 octets: 27 of a response, and 439 octets that begin none.
fn long_stream(
    rt: &(impl Abort + AllocGlobal),
    fragment: &[u8; FRAGMENT_LIMIT],
) -> Result<Vec<u8>, Fail> {
    let mut stream = stream_of(rt.alloc(), fragment, 27)?;
    stream.extend_from_slice(&[0; 439])?;
    same(rt, &stream.len(), &65_536);
    Ok(stream)
}

fn check_in_tens(
    rt: &(impl Abort + AllocGlobal),
    stream: &[u8],
    fragment: &[u8],
) -> Result<(), Fail> {
    let pieces: Vec<&[u8]> = stream.chunks(10).collect(rt.alloc())?;
    check_stream(rt, &pieces, fragment)
}

/// In one piece between empty ones, and in pieces of ten.
#[test]
fn many_largest_responses(rt: HostRuntime) -> Result<(), Fail> {
    let fragment = largest_fragment();
    let stream = long_stream(&rt, &fragment)?;
    check_stream(&rt, &[&[], &stream, &[]], &fragment)?;
    check_in_tens(&rt, &stream, &fragment)
}

/// A mebibyte in one piece: 16 times these octets.
#[test]
fn a_large_piece_of_a_link(rt: HostRuntime) -> Result<(), Fail> {
    let stream = long_stream(&rt, &largest_fragment())?;
    let piece = repeat(rt.alloc(), b"", &stream, 16)?;
    same(&rt, &count_events(rt.alloc(), &[&piece])?, &10_912);
    Ok(())
}

/// How many responses a fragment in frames is; it is one fragment.
fn count_in_fragment(rt: &(impl Abort + AllocGlobal), fragment: &[u8]) -> Result<usize, Fail>
    requires { length fragment.now ≤ 2048 }
{
    let stream = frames_of(rt.alloc(), fragment)?;
    same(rt, &count_fragments(rt.alloc(), &[&stream])?, &1);
    Ok(read_responses(rt.alloc(), &[&stream])?.len())
}

/// A fragment that is refused is no response, and no want of memory: one of three octets, a request, and an object
/// without its octets. The same with the octets of the object is a response.
#[test]
fn refused_fragments(rt: HostRuntime) -> Result<(), Fail> {
    same(&rt, &count_in_fragment(&rt, b"\xC0\x81\0")?, &0);
    same(&rt, &count_in_fragment(&rt, b"\xC0\x01\x3C\x02\x06")?, &0);
    same(
        &rt,
        &count_in_fragment(&rt, b"\xC0\x81\0\0\x02\x01\x17\x01\x05")?,
        &0,
    );
    same(
        &rt,
        &count_in_fragment(&rt, b"\xC0\x81\0\0\x02\x01\x17\x01\x05\x81")?,
        &1,
    );
    Ok(())
}

/// How many fragments segments are, each in a frame.
fn count_in_segments(rt: &(impl Abort + AllocGlobal), carried: &[[u8; 2]]) -> Result<usize, Fail> {
    let mut frames = Vec::new(rt.alloc());
    for segment in carried {
        add_frame(&mut frames, segment)?;
    }
    count_fragments(rt.alloc(), &[&frames])
}

/// A segment that is dropped is no want of memory: the last one of a fragment alone, and behind a gap.
#[test]
fn dropped_segments(rt: HostRuntime) -> Result<(), Fail> {
    let alone: [[u8; 2]; 3] = [[0x85, 0xAA], [0xC6, 0xBB], [0x87, 0xCC]];
    same(&rt, &count_in_segments(&rt, &alone)?, &1);
    let behind_a_gap: [[u8; 2]; 3] = [[0x45, 0xAA], [0x07, 0xBB], [0x88, 0xCC]];
    same(&rt, &count_in_segments(&rt, &behind_a_gap)?, &0);
    Ok(())
}

/// A feed that was fed octets in pieces of ten.
fn fed_in_tens(alloc: Global, stream: &[u8]) -> Result<LinkFeed, Fail> {
    let mut feed = LinkFeed::new(alloc);
    for piece in stream.chunks(10) {
        feed.feed(piece)?;
    }
    Ok(feed)
}

/// 243 frames and 439 octets that begin none.
fn check_events(rt: &impl Abort, feed: &mut LinkFeed) {
    for _ in 0..243u8 {
        assert!(rt; matches!(feed.next(), Some(LinkEvent::Frame(_))));
    }
    for _ in 0..439u16 {
        assert!(rt; matches!(feed.next(), Some(LinkEvent::Skipped(SkipReason::BadStart))));
    }
    assert!(rt; feed.next().is_none());
}

/// All before the first event is asked for.
#[test]
fn many_octets_wait(rt: HostRuntime) -> Result<(), Fail> {
    let stream = long_stream(&rt, &largest_fragment())?;
    check_events(&rt, &mut fed_in_tens(rt.alloc(), &stream)?);
    Ok(())
}

/// What becomes of a segment.
fn take(assembler: &mut Assembler, segment: &[u8]) -> Result<Taken, Fail> {
    Ok(assembler.segment(segment)?)
}

/// What becomes of the last of so many segments of a fragment.
fn take_all(
    assembler: &mut Assembler,
    fragment: &[u8; FRAGMENT_LIMIT],
    count: usize,
) -> Result<Taken, Fail> {
    let mut taken = Taken::More;
    for segment in segments(fragment, 60).take(count) {
        taken = take(assembler, segment.octets())?;
    }
    Ok(taken)
}

/// The fragment isn't finished.
fn check_unfinished(rt: &impl Abort, taken: &Taken) {
    assert!(rt; matches!(taken, Taken::More));
}

/// The fragment is finished, and is this one.
fn check_finished(rt: &impl Abort, taken: &Taken, fragment: &[u8]) {
    match taken {
        Taken::Fragment(found) => same_list(rt, found.as_slice(), fragment),
        _ => assert!(rt; false),
    }
}

/// In nine segments, after eight of them that stay unfinished, and in one segment after eight again.
#[test]
fn longest_fragment(rt: HostRuntime) -> Result<(), Fail> {
    let fragment = largest_fragment();
    let mut assembler = Assembler::new(rt.alloc());
    check_unfinished(&rt, &take_all(&mut assembler, &fragment, 8)?);
    check_finished(&rt, &take_all(&mut assembler, &fragment, 9)?, &fragment);
    check_unfinished(&rt, &take_all(&mut assembler, &fragment, 8)?);
    let segment = repeat(rt.alloc(), b"\xC5", &fragment, 1)?;
    check_finished(&rt, &take(&mut assembler, &segment)?, &fragment);
    Ok(())
}

/// A feed that was given nothing, and two pieces.
fn feed_of(alloc: Global, front: &[u8], behind: &[u8]) -> Result<ApduFeed, Fail> {
    let mut feed = ApduFeed::new(alloc);
    feed.feed(&[])?;
    feed.feed(front)?;
    feed.feed(behind)?;
    Ok(feed)
}

/// The next APDU is the longest one.
fn check_longest(rt: &impl Abort, feed: &mut ApduFeed) {
    match feed.next() {
        Some(Ok(Apdu::I { ns, nr, asdu })) => {
            same(rt, &(ns, nr), &(1, 2));
            same_list(rt, asdu.as_slice(), [0x11; 249].as_slice());
        }
        _ => assert!(rt; false),
    }
}

/// How many APDUs pieces hold; none may end in a fault.
fn count_apdus(rt: &(impl Abort + AllocGlobal), pieces: &[&[u8]]) -> Result<usize, Fail> {
    let (apdus, fault) = apdus_of(rt.alloc(), pieces)?;
    same(rt, &fault, &None);
    Ok(apdus.len())
}

/// 257 of the longest APDUs without the first octet, and the first octet of another.
fn longest_behind(alloc: Global) -> Result<Vec<u8>, Fail> {
    let mut behind = repeat(alloc, b"\xFD\x02\x00\x04\x00", b"\x11", 249)?;
    behind.push(0x68)?;
    repeat(alloc, b"", &behind, 257)
}

/// So many of the longest APDUs come, and nothing behind them.
fn check_all(rt: &impl Abort, feed: &mut ApduFeed, count: u16) {
    for _ in 0..count {
        check_longest(rt, feed);
    }
    assert!(rt; feed.next().is_none());
}

/// 257 of the longest APDUs and the first octet of another in one piece, and as many again behind them.
#[test]
fn longest_apdus(rt: HostRuntime) -> Result<(), Fail> {
    let behind = longest_behind(rt.alloc())?;
    let stream = repeat(rt.alloc(), b"\x68", &behind, 1)?;
    same(&rt, &stream.len(), &65_536);
    check_all(&rt, &mut feed_of(rt.alloc(), &stream, &behind)?, 514);
    Ok(())
}

/// The same 16 times in one piece: a mebibyte.
#[test]
fn a_large_piece_of_apdus(rt: HostRuntime) -> Result<(), Fail> {
    let piece = repeat(rt.alloc(), b"\x68", &longest_behind(rt.alloc())?, 16)?;
    same(&rt, &count_apdus(&rt, &[&piece])?, &4112);
    Ok(())
}

fn count_in_hundreds(rt: &(impl Abort + AllocGlobal), stream: &[u8]) -> Result<usize, Fail> {
    let pieces: Vec<&[u8]> = stream.chunks(100).collect(rt.alloc())?;
    count_apdus(rt, &pieces)
}

/// The same octets in pieces of a hundred.
#[test]
fn longest_apdus_in_pieces(rt: HostRuntime) -> Result<(), Fail> {
    let stream = repeat(rt.alloc(), b"\x68", &longest_behind(rt.alloc())?, 1)?;
    same(&rt, &count_in_hundreds(&rt, &stream)?, &257);
    Ok(())
}

/// Parameters that no connection would have make a window, too.
#[test]
fn windows_of_any_parameters(rt: HostRuntime) -> Result<(), Fail> {
    let narrow = Window::new(rt.alloc(), 1, 8, 50, 100, 10)?;
    assert!(rt; narrow.may_send());
    let none = Window::new(rt.alloc(), 0, 0, 0, 0, 0)?;
    assert!(rt; !none.may_send());
    Ok(())
}
