//! The hub and what it stands on: a long run of steps, and numbers and words.
use crate::checks::{same, same_text};
use gw_hub::{Hub, Reply, Step, StepFault, Why};
use gw_map::{DEFAULT_SETTINGS, Settings};
use gw_time::TagFault;
use std::alloc::Global;
use std::process::Abort;
use std::test::Fail;

/// Client 0 comes up, and is pumped 10,000 times.
fn many_steps(alloc: Global) -> Result<Vec<Step>, Fail> {
    let mut steps = Vec::new(alloc);
    steps.push(Step::ClientUp {
        client: 0,
        moment: 0,
    })?;
    for _ in 0..10_000u16 {
        steps.push(Step::Pump {
            client: 0,
            moment: 0,
        })?;
    }
    Ok(steps)
}

/// The replies to steps, with the default settings.
fn replies_to(alloc: Global, steps: Vec<Step>) -> Result<Vec<Result<Reply, StepFault>>, Fail> {
    let settings = Settings::read(alloc, DEFAULT_SETTINGS)?;
    let (hub, replies) = Hub::run(alloc, settings, steps)?;
    drop(hub);
    Ok(replies)
}

/// Many steps in one run.
#[test]
fn a_long_run(rt: HostRuntime) -> Result<(), Fail> {
    let replies = replies_to(rt.alloc(), many_steps(rt.alloc())?)?;
    same(&rt, &replies.len(), &10_001);
    assert!(&rt; matches!(replies.last(), Some(Ok(Reply::Nothing))));
    Ok(())
}

/// The numbers by which a log names the causes of a close.
#[test]
fn causes_are_numbered(rt: HostRuntime) {
    let causes = [
        Why::Sequence,
        Why::NotStarted,
        Why::Malformed,
        Why::Flooded,
        Why::Timer,
    ];
    same(&rt, &causes.map(|why| why as u8), &[1, 2, 3, 4, 5]);
}

#[test]
fn words_of_faults_of_tags(rt: HostRuntime) -> Result<(), Fail> {
    for (fault, number, text) in [
        (TagFault::Field, 1, "1 Field"),
        (TagFault::Date, 2, "2 Date"),
    ] {
        same(&rt, &(fault as u8), &number);
        same_text(&rt, fault.to_string(rt.alloc())?.as_str(), text);
    }
    Ok(())
}
