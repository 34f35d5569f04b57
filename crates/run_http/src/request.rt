//! What a request asks for.
ghost use Rattle.std.specs.Prelude.{◌≡◌};
ghost use Rattle.run_http.specs.Requests.{before_query, behind_host, found_at, host_end, path_of, query_in, refused, request_of};

use thiserror::Error;

/// What is told of the gateway.
#[derive(Clone, Copy)]
pub enum Resource {
    /// `/`: a page for people.
    Page,
    /// `/metrics`: the figures as Prometheus reads them.
    Metrics,
    /// `/alive`: whether the core makes its ticks.
    Alive,
    /// `/health`: whether anything is wrong.
    Health,
    /// `/points`: a page with the values of points.
    Points,
    /// `/points.csv`: the values of points, for a spreadsheet.
    PointsCsv,
    /// `/points.json`: the values of points, for a program.
    PointsJson,
}

/// Why nothing is told.
#[derive(Clone, Copy, Debug, Error)]
pub enum RequestFault {
    /// What came is no request of HTTP/1.0 or HTTP/1.1.
    #[error("no request of HTTP/1.0 or HTTP/1.1")]
    Malformed,
    /// There is nothing at this path.
    #[error("nothing at this path")]
    NotFound,
    /// The method is neither GET nor HEAD.
    #[error("neither GET nor HEAD")]
    NotAllowed,
    /// The query behind the path isn't one that can be answered.
    #[error("a query that isn't known")]
    OddQuery,
    /// As many requests of the kind are answered as may be at a time.
    #[error("too many at a time")]
    Busy,
    /// The head of the request has more than 4,096 octets or more than 64 fields.
    #[error("more than 4,096 octets or more than 64 fields")]
    TooLong,
}

/// A request: what is asked for, or why that is refused, and whether it is one for a head alone.
#[derive(Clone, Copy)]
pub struct HttpRequest {
    pub asked: Result<Resource, RequestFault>,
    pub is_head: bool,
}

impl HttpRequest {
    /// That of a method and a target.
    pub fn of(method: &[u8], target: &[u8]) -> HttpRequest
        ensures { result ≡ request_of method.now target.now }
    {
        let is_head = method == b"HEAD".as_slice();
        let asked = match found_at(path_of(target)) {
            Ok(_) if method != b"GET".as_slice() && !is_head => Err(RequestFault::NotAllowed),
            found => found,
        };
        HttpRequest { asked, is_head }
    }

    /// One that is refused before it is known.
    pub fn of_refusal(refusal: RequestFault) -> HttpRequest
        ensures { result ≡ refused refusal }
    {
        HttpRequest {
            asked: Err(refusal),
            is_head: false,
        }
    }
}

/// The path of a target: in absolute form (RFC 9112, 3.2.2) it stands behind the host.
fn path_of(target: &[u8]) -> &[u8]
    ensures { result.now ≡ path_of target.now }
{
    let target = before_query(target);
    if target.starts_with(b"http://") {
        behind_host(&target[7..])
    } else {
        target
    }
}

/// The path behind a host; the root where none is written.
fn behind_host(target: &[u8]) -> &[u8]
    ensures { result.now ≡ behind_host target.now }
{
    match host_end(target) {
        Some(end) => &target[end..],
        None => b"/",
    }
}

/// Where the host ends, if a path follows.
fn host_end(target: &[u8]) -> Option<usize>
    ensures { result ≡ host_end target.now }
{
    target.iter().position(|octet| *octet == b'/')
}

/// What stands before the query of a target.
fn before_query(target: &[u8]) -> &[u8]
    ensures { result.now ≡ before_query target.now }
{
    match query_in(target) {
        Some(end) => &target[..end],
        None => target,
    }
}

/// Where the query of a target begins, if it has one.
fn query_in(target: &[u8]) -> Option<usize>
    ensures { result ≡ query_in target.now }
{
    target.iter().position(|octet| *octet == b'?')
}

/// What lies at a path.
fn found_at(path: &[u8]) -> Result<Resource, RequestFault>
    ensures { result ≡ found_at path.now }
{
    if path == b"/".as_slice() {
        Ok(Resource::Page)
    } else if path == b"/metrics".as_slice() {
        Ok(Resource::Metrics)
    } else if path == b"/alive".as_slice() {
        Ok(Resource::Alive)
    } else if path == b"/health".as_slice() {
        Ok(Resource::Health)
    } else if path == b"/points".as_slice() {
        Ok(Resource::Points)
    } else if path == b"/points.csv".as_slice() {
        Ok(Resource::PointsCsv)
    } else if path == b"/points.json".as_slice() {
        Ok(Resource::PointsJson)
    } else {
        Err(RequestFault::NotFound)
    }
}
