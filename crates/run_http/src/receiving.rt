//! Reading a request.
ghost use Rattle.std.specs.Prelude.{◌≤◌, IfSome, length, take};
ghost use Rattle.run_http.specs.Requests.{IsAnswered, IsReceived, ReadsOn};

use crate::query::Query;
use crate::request::{HttpRequest, RequestFault};
use httparse::spans::{EMPTY_HEADER_SPAN, parse_request};
use httparse::{Error, Status};
use std::io::{ErrorKind, Read};

/// The most octets that the head of a request may have.
pub const MOST_OCTETS: usize = 4096;

/// The most fields that it may have.
pub const MOST_FIELDS: usize = 64;

/// Reads a request; nothing where the end of the input, or a fault, comes before its head is whole.
///
/// An interrupted read is tried again. What follows the head is not read, or read and dropped. `query` is what its target has
/// behind the path.
pub fn receive<R: Read>(reader: &mut R, query: &mut Query) -> Option<HttpRequest>
    ensures { IfSome result (λ request. IsReceived (R.remaining reader.old) (R.remaining reader.new) request) }
{
    let mut octets = [0u8; MOST_OCTETS];
    let mut filled = 0;
    for _read in 0..u32::MAX {
        filled = read_more(reader, &mut octets, filled)?;
        let request = request_in(&octets[..filled], query);
        if request.is_some() {
            return request;
        }
    }
    None
}

/// Reads once behind the octets that came so far, if it was interrupted nothing; how many came so far then, if it
/// wasn't the end of the input or a fault.
fn read_more<R: Read>(reader: &mut R, octets: &mut [u8], filled: usize) -> Option<usize>
    requires { filled ≤ length octets.old }
    ensures within { IfSome result (λ total. total ≤ length octets.old) }
    ensures more { IfSome result (λ total. ReadsOn (R.remaining reader.old) (R.remaining reader.new)
        (take filled octets.old) (take total octets.new)) }
{
    match reader.read(&mut octets[filled..]) {
        Ok(0) => None,
        Ok(count) => Some(filled + count),
        Err(error) if error.kind() == ErrorKind::Interrupted => Some(filled),
        Err(_) => None,
    }
}

/// What the octets that came so far are answered; nothing where more of them may make a request.
fn request_in(octets: &[u8], query: &mut Query) -> Option<HttpRequest>
    ensures { IsAnswered octets.now result }
{
    let mut fields = [EMPTY_HEADER_SPAN; MOST_FIELDS];
    match parse_request(octets, &mut fields) {
        Ok(Status::Complete(head)) => {
            let target = head.path.of(octets);
            *query = Query::of(target);
            Some(HttpRequest::of(head.method.of(octets), target))
        }
        Ok(Status::Partial) if octets.len() < MOST_OCTETS => None,
        Ok(Status::Partial) => Some(HttpRequest::of_refusal(RequestFault::TooLong)),
        Err(Error::TooManyHeaders) => Some(HttpRequest::of_refusal(RequestFault::TooLong)),
        Err(_) => Some(HttpRequest::of_refusal(RequestFault::Malformed)),
    }
}
