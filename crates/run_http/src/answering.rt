//! Answers to requests.
ghost use Rattle.std.specs.Prelude.{◌≡◌, IfOk, string_bytes};
ghost use Rattle.run_http.specs.Answers.{content_of, fields_of, line_of, message, outcome_of, refused_by, sent_of};

use crate::request::{RequestFault, Resource};
use gw_model::Memory;
use std::alloc::Global;

/// The octets that answer a request with the body that it asks for: as a success, or where what it asks about isn't well, as a
/// failure of the server (RFC 9110, 15.6.4). `fields` are further ones, each with its line end.
pub fn answer(
    alloc: Global,
    asked: Resource,
    is_head: bool,
    is_well: bool,
    fields: &str,
    body: &str,
) -> Result<String, Memory>
    ensures { IfOk result (λ text. string_bytes text
        ≡ message (outcome_of is_well) (content_of asked) fields.now body.now is_head) }
{
    message(
        alloc,
        outcome_of(is_well),
        content_of(asked),
        fields,
        body,
        is_head,
    )
}

/// The status code of an answer, with its words (RFC 9110, 15.3.1, 15.6.4).
fn outcome_of(is_well: bool) -> &'static str
    ensures { result.now ≡ outcome_of is_well }
{
    if is_well {
        "200 OK"
    } else {
        "503 Service Unavailable"
    }
}

/// The content type of what is asked for.
fn content_of(asked: Resource) -> &'static str
    ensures { result.now ≡ content_of asked }
{
    match asked {
        Resource::Page | Resource::Points => "text/html; charset=utf-8",
        Resource::Metrics => "text/plain; version=0.0.4; charset=utf-8",
        Resource::Alive | Resource::Health => "text/plain; charset=utf-8",
        Resource::PointsCsv => "text/csv; charset=utf-8",
        Resource::PointsJson => "application/json",
    }
}

/// The octets that refuse a request.
pub fn refuse(alloc: Global, refusal: RequestFault, is_head: bool) -> Result<String, Memory>
    ensures { IfOk result (λ text. string_bytes text ≡ refused_by refusal is_head) }
{
    let (line, fields) = (line_of(refusal), fields_of(refusal));
    let body = format!(in alloc; "{line}\n")?;
    message(
        alloc,
        line,
        "text/plain; charset=utf-8",
        fields,
        body.as_str(),
        is_head,
    )
}

/// The status code of a refusal, with its words (RFC 9110, 15.5; RFC 6585, 5).
fn line_of(refusal: RequestFault) -> &'static str
    ensures { result.now ≡ line_of refusal }
{
    match refusal {
        RequestFault::Malformed => "400 Bad Request",
        RequestFault::NotFound => "404 Not Found",
        RequestFault::NotAllowed => "405 Method Not Allowed",
        RequestFault::OddQuery => "400 Query Not Known",
        RequestFault::Busy => "503 Service Unavailable",
        RequestFault::TooLong => "431 Request Header Fields Too Large",
    }
}

/// The fields that a refusal has alone.
fn fields_of(refusal: RequestFault) -> &'static str
    ensures { result.now ≡ fields_of refusal }
{
    match refusal {
        RequestFault::NotAllowed => "Allow: GET, HEAD\r\n",
        RequestFault::Busy => "Retry-After: 1\r\n",
        _ => "",
    }
}

/// A response of HTTP/1.1, after which the connection ends.
fn message(
    alloc: Global,
    line: &str,
    content: &str,
    fields: &str,
    body: &str,
    is_head: bool,
) -> Result<String, Memory>
    ensures { IfOk result (λ text. string_bytes text ≡ message line.now content.now fields.now body.now is_head) }
{
    let length = body.len();
    let sent = sent_of(body, is_head);
    let text = format!(in alloc;
        "HTTP/1.1 {line}\r\nContent-Type: {content}\r\nContent-Length: {length}\r\n\
        Cache-Control: no-store\r\n{fields}Connection: close\r\n\r\n{sent}"
    )?;
    Ok(text)
}

/// What is sent of a body.
fn sent_of(body: &str, is_head: bool) -> &str
    ensures { result.now ≡ sent_of body.now is_head }
{
    if is_head { "" } else { body }
}
