//! Where objects rest.

ghost use Rattle.std.specs.Prelude.{◌≡◌, IfOk, IfSome};
ghost use Rattle.qp_chart.specs.StateTree.{has};
ghost use Rattle.qp_port_qk.specs.Resting.{KernelShows, AreShownBy, KernelShowsOne};

use crate::job::QkJob;
use qp_kernel_end::Rest;
use qp_kernel_turns::Objects;
use qp_model::System;
use std::alloc::{AllocError, Global};

/// Whether the step of this object is under way.
fn is_busy(under_way: &[u8], p: u8) -> bool
    ensures { result ≡ has under_way.now p }
{
    under_way.iter().any(|q| *q == p)
}

/// The values, copied.
fn copy(alloc: Global, values: &[i64]) -> Result<Vec<i64>, AllocError>
    ensures { IfOk result (λ copied. copied.items ≡ values.now) }
{
    values.iter().copied().collect(alloc)
}

/// Where the object of this priority rests; None while its step is under way, and before its start.
fn rest_of(
    alloc: Global,
    objects: &Objects,
    under_way: &[u8],
    p: u8,
) -> Result<Option<Rest>, AllocError>
    ensures { IfOk result (λ rest. IfSome rest (KernelShowsOne objects.now under_way.now)) }
{
    if is_busy(under_way, p) {
        return Ok(None);
    }
    match objects.leaf(p) {
        None => Ok(None),
        Some(leaf) => {
            let vars = copy(alloc, objects.vars(p))?;
            Ok(Some(Rest {
                priority: p,
                leaf,
                vars,
            }))
        }
    }
}

/// Where all objects rest that have started and whose steps aren't under way.
fn rests_of(
    alloc: Global,
    sys: &System,
    objects: &Objects,
    under_way: &[u8],
) -> Result<Vec<Rest>, AllocError>
    ensures { IfOk result (λ rests. KernelShows objects.now under_way.now rests.items) }
{
    let mut rests = Vec::new(alloc);
    for d in &sys.objects.items {
        match rest_of(alloc, objects, under_way, d.priority)? {
            Some(rest) => rests.push(rest)?,
            None => {}
        }
    }
    Ok(rests)
}

/// Where the objects of this lane rest.
pub(crate) fn rests(alloc: Global, sys: &System, job: &QkJob<'_>) -> Result<Vec<Rest>, AllocError>
    ensures { IfOk result (λ rests. AreShownBy job.now rests.items) }
{
    match job {
        QkJob::Kernel(objects, kernel) => rests_of(alloc, sys, objects, kernel.stack.as_slice()),
        QkJob::Source(_) => Ok(Vec::new(alloc)),
    }
}
