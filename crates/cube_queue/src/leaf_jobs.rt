//! The jobs of leaves.
ghost use Rattle.std.specs.Prelude.{◌≡◌, ◌<◌, length, Some, IfOk};
ghost use Rattle.std.specs.List.{slice_get};
ghost use Rattle.cube_jobs.specs.Results.{AreLeaves};
ghost use Rattle.cube_queue.specs.Participants.{AreJobsOf};

use cube_jobs::Job;
use dimacs::Cube;
use std::alloc::{AllocError, Global};

/// The job of a leaf, where these are the cubes of all leaves.
pub(crate) fn job_of(alloc: Global, cubes: &[Cube], leaf: u32) -> Job
    requires { leaf < length cubes.now }
    ensures ticket { result.ticket ≡ leaf }
    ensures cube { slice_get cubes.now leaf ≡ Some result.cube }
{
    Job::new(alloc, leaf, cubes[leaf as usize].as_slice())
}

/// The jobs of these leaves, in their order, where these are the cubes of all leaves.
pub(crate) fn jobs_of(alloc: Global, cubes: &[Cube], which: &[u32]) -> Result<Vec<Job>, AllocError>
    requires { AreLeaves cubes.now which.now }
    ensures { IfOk result (λ jobs. AreJobsOf cubes.now which.now jobs.items) }
{
    let mut jobs = Vec::with_capacity(alloc, which.len())?;
    for leaf in which {
        jobs.push(job_of(alloc, cubes, *leaf))?;
    }
    Ok(jobs)
}
