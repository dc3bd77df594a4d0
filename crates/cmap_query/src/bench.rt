//! Measures how long a CMap file takes to read, and its codes to look up.

mod request;
mod rounds;

use crate::bench::request::Request;
use crate::bench::rounds::{Measured, Work};
use cmap_queries::failure::Failure;
use cmap_queries::output::{report, send};
use std::fs;

/// Measures the work that the arguments ask for, and gives the status. One line on the standard output has the nanoseconds
/// and the checksum.
pub(crate) fn bench(rt: &HostRuntime, arguments: &[String]) -> u8 {
    match measure_and_tell(rt, arguments) {
        Ok(()) => 0,
        Err(failure) => report(failure, &mut rt.stderr()),
    }
}

fn measure_and_tell(rt: &HostRuntime, arguments: &[String]) -> Result<(), Failure> {
    let request = Request::parse(arguments).ok_or(Failure::Usage)?;
    let measured = measure(rt, request)?;
    tell(rt, measured)
}

fn measure(rt: &HostRuntime, request: Request<'_>) -> Result<Measured, Failure> {
    let data = fs::read(rt, request.path)?;
    let work = Work::new(rt.alloc(), request.mode, &data)?;
    work.measure(rt, rt.alloc(), request.rounds)
}

fn tell(rt: &HostRuntime, measured: Measured) -> Result<(), Failure> {
    let line = format!(in rt.alloc(); "{} {}\n", measured.nanos, measured.checksum)?;
    Ok(send(&mut rt.stdout(), line.as_str())?)
}
