//! Where objects rest.

ghost use Rattle.std.specs.Prelude.{◌≡◌, IfOk, IfSome};
ghost use Rattle.qp_port.specs.declared.job.Job.TheVariants as job;
ghost use Rattle.qp_port.specs.Resting.{AreShown, IsShownBy};

use crate::job::Job;
use crate::turns::Turns;
use crate::worker::PortWorker;
use qp_base::Tells;
use qp_calls_log::Meets;
use qp_kernel_end::Rest;
use qp_port_lanes::Home;
use std::alloc::{AllocError, Global};

/// The values, copied.
fn copy(alloc: Global, values: &[i64]) -> Result<Vec<i64>, AllocError>
    ensures { IfOk result (λ copied. copied.items ≡ values.now) }
{
    values.iter().copied().collect(alloc)
}

/// Where this object rests; None before its start is done, and while a step of it is under way.
fn rest_at_home(alloc: Global, home: &Home) -> Result<Option<Rest>, AllocError>
    ensures { IfOk result (λ rest. IfSome rest (IsShownBy (job.Home home.now))) }
{
    if !home.rests() {
        return Ok(None);
    }
    match home.object().leaf() {
        None => Ok(None),
        Some(leaf) => {
            let vars = copy(alloc, home.object().vars())?;
            Ok(Some(Rest {
                priority: home.priority(),
                leaf,
                vars,
            }))
        }
    }
}

/// Where what runs in a lane rests, if that is an object.
fn rest_of(alloc: Global, job: &Job<'_>) -> Result<Option<Rest>, AllocError>
    ensures { IfOk result (λ rest. IfSome rest (IsShownBy job.now)) }
{
    match job {
        Job::Home(home) => rest_at_home(alloc, home),
        Job::Nothing | Job::Source(_) => Ok(None),
    }
}

/// Where the objects of these workers rest, those that do.
pub(crate) fn rests<O: Meets, G: Tells, T: Turns<O>>(
    alloc: Global,
    workers: &[PortWorker<'_, O, G, T>],
) -> Result<Vec<Rest>, AllocError>
    ensures { IfOk result (λ rests. AreShown (λ w. w.job) workers.now rests.items) }
{
    let mut rests = Vec::new(alloc);
    for worker in workers {
        match rest_of(alloc, &worker.job)? {
            Some(rest) => rests.push(rest)?,
            None => {}
        }
    }
    Ok(rests)
}
