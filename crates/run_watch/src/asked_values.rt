//! Answers to requests for the values of points.

use crate::status_source::StatusSource;
use crate::values::{Range, Values};
use gw_model::Memory;
use run_clock::Clock;
use run_http::{HttpRequest, Query, RequestFault, Resource, answer, refuse};
use run_peers::Reporter;
use run_values::{Choice, FIRST_ROWS, Form, POLICY, PointsPage};
use std::alloc::Global;
use std::sync::Wait;

/// What is asked of the values of points.
#[derive(Clone, Copy)]
pub(crate) struct AskedValues {
    resource: Resource,
    choice: Choice,
    range: Range,
}

impl AskedValues {
    /// What a request asks for; nothing if it isn't for values.
    pub(crate) fn of(
        request: &HttpRequest,
        query: &Query,
    ) -> Option<Result<AskedValues, RequestFault>> {
        let Ok(resource) = request.asked else {
            return None;
        };
        match resource {
            Resource::Points => Some(AskedValues::of_page(query)),
            Resource::PointsCsv => Some(AskedValues::of_list(resource, Form::Csv, query)),
            Resource::PointsJson => Some(AskedValues::of_list(resource, Form::Json, query)),
            Resource::Page | Resource::Metrics | Resource::Alive | Resource::Health => None,
        }
    }

    /// The page, from a row on.
    fn of_page(query: &Query) -> Result<AskedValues, RequestFault> {
        let from = query.number("from")?.unwrap_or(0);
        Ok(AskedValues {
            resource: Resource::Points,
            choice: Choice {
                form: Form::Html,
                since: None,
            },
            range: Range {
                from: usize::try_from(from).unwrap_or(usize::MAX),
                most: FIRST_ROWS,
            },
        })
    }

    /// All values in a form, or those that changed since a moment.
    fn of_list(resource: Resource, form: Form, query: &Query) -> Result<AskedValues, RequestFault> {
        Ok(AskedValues {
            resource,
            choice: Choice {
                form,
                since: query.number("changed_since")?,
            },
            range: Range {
                from: 0,
                most: usize::MAX,
            },
        })
    }
}

/// The answer to a request for values.
pub(crate) fn answer_values<R: Wait, C: Clock>(
    reporter: &Reporter<'_, R, C>,
    source: &StatusSource<'_>,
    values: &Values<'_>,
    asked: Result<AskedValues, RequestFault>,
    is_head: bool,
) -> Result<String, Memory> {
    match asked {
        Ok(asked) => answer_with(reporter, source, values, asked, is_head),
        Err(refusal) => refuse(reporter.alloc, refusal, is_head),
    }
}

/// The refusal of a request for values while as many are answered as may be.
pub(crate) fn refuse_values(alloc: Global, is_head: bool) -> Result<String, Memory> {
    refuse(alloc, RequestFault::Busy, is_head)
}

/// The answer with the values that are asked for.
fn answer_with<R: Wait, C: Clock>(
    reporter: &Reporter<'_, R, C>,
    source: &StatusSource<'_>,
    values: &Values<'_>,
    asked: AskedValues,
    is_head: bool,
) -> Result<String, Memory> {
    let AskedValues {
        resource,
        choice,
        range,
    } = asked;
    let text = values.text(reporter.alloc, reporter.rt, choice, range, source.started)?;
    match resource {
        Resource::Points => {
            let page = PointsPage {
                identity: source.identity,
                points: values.points(),
                head: values.head(reporter.rt),
                from: range.from,
                rows: text.as_str(),
            };
            let body = page_text(reporter.alloc, &page)?;
            answer(
                reporter.alloc,
                resource,
                is_head,
                true,
                POLICY,
                body.as_str(),
            )
        }
        _ => answer(reporter.alloc, resource, is_head, true, "", text.as_str()),
    }
}

/// The text of the page.
fn page_text(alloc: Global, page: &PointsPage<'_>) -> Result<String, Memory> {
    Ok(format!(in alloc; "{page}")?)
}
