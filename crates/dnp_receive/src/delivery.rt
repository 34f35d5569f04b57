//! What a whole stream of octets gives, through the layers that read it.
ghost use Rattle.std.specs.Prelude.{◌≡◌, ◌≤◌, map, length, IfOk};
ghost use Rattle.std.specs.List.{flat_map};
ghost use Rattle.dnp_link.specs.Stream.{reading};
ghost use Rattle.dnp_receive.specs.Delivery.{
  frames_of,
  response_at,
  stream_replies,
  stream_fragments,
  stream_responses,
};
ghost use Rattle.dnp_receive.specs.Gathering.{HasGathered};

use crate::gathering::Gathering;
use dnp_app::{AppFault, Response, read_response};
use dnp_link::LinkFeed;
use gw_model::Memory;
use std::alloc::Global;

/// The fragments in the octets of one outstation's connection, which come in these pieces. The frames are
/// those from the outstation's address, `peer`, to `own`.
pub fn fragments_of(
    alloc: Global,
    pieces: &[&[u8]],
    own: u16,
    peer: u16,
) -> Result<Vec<Vec<u8>>, Memory>
    ensures { IfOk result (λ fragments. map (λ f. f.items) fragments.items
        ≡ stream_fragments own peer (flat_map (λ piece. piece.now) pieces.now)) }
{
    let Gathering { fragments, .. } = gathering_of(alloc, pieces, own, peer)?;
    Ok(fragments)
}

/// The frames that the link owes in answer to the octets of a connection, in order. The frames are those from
/// the outstation's address, `peer`, to `own`.
pub fn replies_of(
    alloc: Global,
    pieces: &[&[u8]],
    own: u16,
    peer: u16,
) -> Result<Vec<[u8; 10]>, Memory>
    ensures { IfOk result (λ replies. replies.items
        ≡ stream_replies own peer (flat_map (λ piece. piece.now) pieces.now)) }
{
    let Gathering { replies, .. } = gathering_of(alloc, pieces, own, peer)?;
    Ok(replies)
}

/// The responses of an outstation in the octets of its connection, which come in these pieces: the fragments
/// that aren't refused. The frames are those from the outstation's address, `peer`, to `own`.
pub fn responses_of(
    alloc: Global,
    outstation: u8,
    pieces: &[&[u8]],
    own: u16,
    peer: u16,
) -> Result<Vec<Response>, Memory>
    ensures { IfOk result (λ responses. responses.items
        ≡ stream_responses outstation own peer (flat_map (λ piece. piece.now) pieces.now)) }
{
    let fragments = fragments_of(alloc, pieces, own, peer)?;
    let mut responses = Vec::new(alloc);
    for fragment in fragments {
        if let Some(response) = response_in(alloc, outstation, fragment)? {
            responses.push(response)?;
        }
    }
    Ok(responses)
}

/// What the octets of a connection brought, which come in these pieces.
fn gathering_of(alloc: Global, pieces: &[&[u8]], own: u16, peer: u16) -> Result<Gathering, Memory>
    ensures { IfOk result (HasGathered own peer (frames_of
        (reading (flat_map (λ piece. piece.now) pieces.now)).events)) }
{
    let mut feed = LinkFeed::new(alloc);
    let mut gathering = Gathering::new(alloc, own, peer);
    for piece in pieces {
        feed.feed(piece)?;
        gathering.drain(&mut feed)?;
    }
    Ok(gathering)
}

/// The response that a fragment is, where it isn't refused.
#[tactic(auto, unfolding(crate::specs::Delivery::response_at))]
fn response_in(alloc: Global, outstation: u8, fragment: Vec<u8>) -> Result<Option<Response>, Memory>
    requires { length fragment.items ≤ 2048 }
    ensures { IfOk result (λ response. response ≡ response_at outstation fragment.items) }
{
    match read_response(alloc, outstation, fragment) {
        Ok(response) => Ok(Some(response)),
        Err(AppFault::Memory) => Err(Memory),
        Err(AppFault::Short | AppFault::NotResponse | AppFault::Object(_)) => Ok(None),
    }
}
