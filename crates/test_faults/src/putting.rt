//! Tests of put_out over a hub alone: what a writer takes of the replies to pumps, and where it fails.

use crate::checks::same_list;
use gw_map::DEFAULT_SETTINGS;
use std::process::Abort;
use std::sync::atomic::AtomicBool;
use test_tools::{
    Batch, Client, Hub, Machine, MachineSource, Put, Reply, hub_on, put_out, replies_of,
};

/// What comes before the run: a client that interrogates the station.
pub const STEPS: &str = "open 0 0
frame 0 0 68 04 07 00 00 00
frame 0 0 68 0E 00 00 00 00 64 01 06 00 01 00 00 00 00 14";

pub const REPLIES: &str = "ok
taken
taken
";

/// STARTDT con, the confirmation, two points and the termination.
pub const RUN: &[u8] = &[
    0x68, 0x04, 0x0B, 0x00, 0x00, 0x00, //
    0x68, 0x0E, 0x00, 0x00, 0x02, 0x00, 0x64, 0x01, 0x07, 0x00, 0x01, 0x00, 0x00, 0x00, 0x00, 0x14, //
    0x68, 0x0E, 0x02, 0x00, 0x02, 0x00, 0x01, 0x01, 0x14, 0x00, 0x01, 0x00, 0x05, 0x10, 0x00, 0xC0, //
    0x68, 0x10, 0x04, 0x00, 0x02, 0x00, 0x0B, 0x01, 0x14, 0x00, 0x01, 0x00, 0x69, 0x10, 0x00, 0x00,
    0x00, 0xC0, //
    0x68, 0x0E, 0x06, 0x00, 0x02, 0x00, 0x64, 0x01, 0x0A, 0x00, 0x01, 0x00, 0x00, 0x00, 0x00, 0x14,
];

#[test]
fn puts_out(rt: HostRuntime) {
    let hub = hub_after(&rt);
    for room in [0, 5, 6, 21, 30, RUN.len() - 1, RUN.len()] {
        check_put(&rt, &hub, room);
    }
    drop(hub);
}

/// A hub on which the steps were made.
fn hub_after<R: Abort + AllocGlobal>(rt: &R) -> Hub {
    let mut hub = hub_on(rt.alloc(), DEFAULT_SETTINGS).expect(rt, "a hub");
    let replies = replies_of(rt.alloc(), &mut hub, STEPS).expect(rt, "replies");
    same_list(rt, replies.as_slice(), REPLIES.as_bytes());
    hub
}

/// A writer with room for so many octets takes the front of the run, and all of it where it has room.
fn check_put<R: Abort + AllocGlobal>(rt: &R, hub: &Hub, room: usize) {
    let has_ended = AtomicBool::new(false);
    let mut writer = Client::new(rt.alloc(), room, &has_ended);
    let ended = put(hub.copy().expect(rt, "a copy"), &mut writer);
    let front = RUN.get(..room).expect(rt, "that much");
    same_list(rt, writer.octets.as_slice(), front);
    assert!(rt; is_end(&ended, room == RUN.len()), "with room for {room}");
}

/// Whether nothing more was put out, or it couldn't be written.
fn is_end(ended: &Put, is_whole: bool) -> bool {
    match ended {
        Put::Ended(Some(Ok(Reply::Nothing))) => is_whole,
        Put::Unwritten => !is_whole,
        _ => false,
    }
}

/// Hands a run over to a writer.
fn put(hub: Hub, writer: &mut Client<'_>) -> Put {
    let mut source = MachineSource {
        machine: hub,
        client: 0,
        moment: 0,
    };
    put_out(&mut source, writer, &mut Batch::new())
}
