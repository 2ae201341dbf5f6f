//! Repeats a call, and refuses another of its memory requests each time.

use crate::refusing::Refusing;
use std::alloc::{AllocError, Global};
use std::test::Fail;

/// The limit for the memory requests of one run.
const MOST_REQUESTS: u64 = 1000;

/// How many runs failed, and how many succeeded, after a refused request.
#[derive(Clone, Copy, Debug, Drop, PartialEq)]
pub struct Refusals {
    /// Runs that reported that memory ran out.
    pub failed: u64,
    /// Runs that nevertheless gave the result of ample memory.
    pub answered: u64,
}

/// How the runs of a call can be wrong.
#[derive(Debug, Drop)]
pub enum RefusalError {
    /// The run that refuses this request gave a wrong result.
    WrongAnswer(u64),
    /// The run that would refuse this request reported that memory ran out, but never made the request.
    OutOfMemory(u64),
    /// A run succeeded although a request was refused.
    AnsweredWithoutMemory,
    /// Every run up to the limit had a request refused.
    TooManyRequests,
}

/// Returns the answer that a call gives to [`refused_in_turn`] when memory ran out: `AllocError` if the call
/// left everything as promised, otherwise a wrong result.
pub fn out_of_memory(is_as_promised: bool) -> Result<bool, AllocError> {
    if is_as_promised {
        Err(AllocError)
    } else {
        Ok(false)
    }
}

/// Returns the answer that a call gives to [`refused_in_turn`]: success, [`out_of_memory`] if its error is
/// `memory`, or a wrong result after any other error.
pub fn is_answered<T: Drop, E: PartialEq + Drop>(
    answer: Result<T, E>,
    memory: E,
) -> Result<bool, AllocError> {
    match answer {
        Ok(_) => Ok(true),
        Err(error) => out_of_memory(error == memory),
    }
}

/// A call that requests memory, and its arguments.
///
/// The calls of a test are the variants of one type, because a closure for each takes two seconds longer to
/// prove.
pub trait MemoryCall {
    /// Returns whether the result of the call equals the result of ample memory. If memory runs out, this
    /// returns [`out_of_memory`] of whether the call left everything as promised.
    fn answer(&self, heap: &Refusing<Global>) -> Result<bool, AllocError>;
}

/// Runs a call repeatedly, and refuses the first request after the first `setup` ones, then the second and so
/// on, until a run makes all its requests.
///
/// The `setup` requests build the values that the call works on.
pub fn refused_in_turn<C: MemoryCall>(
    alloc: Global,
    setup: u64,
    call: &C,
) -> Result<Refusals, Fail> {
    let mut refusals = Refusals {
        failed: 0,
        answered: 0,
    };
    for number in 1..MOST_REQUESTS {
        let request = setup.saturating_add(number);
        let heap = Refusing::new(alloc, request);
        let answer = call.answer(&heap);
        match (answer, heap.has_refused()) {
            (Ok(false), _) => return Err(RefusalError::WrongAnswer(request).into()),
            (Ok(true), false) => return Ok(refusals),
            (Err(_), false) => return Err(RefusalError::OutOfMemory(request).into()),
            (Ok(true), true) => refusals.answered = refusals.answered.saturating_add(1),
            (Err(_), true) => refusals.failed = refusals.failed.saturating_add(1),
        }
    }
    Err(RefusalError::TooManyRequests.into())
}

/// Counts the requests that a call makes after the first `setup` ones. Returns an error if the call succeeds
/// although a request was refused.
pub fn requests<C: MemoryCall>(alloc: Global, setup: u64, call: &C) -> Result<u64, Fail> {
    let refusals = refused_in_turn(alloc, setup, call)?;
    if refusals.answered != 0 {
        return Err(RefusalError::AnsweredWithoutMemory.into());
    }
    Ok(refusals.failed)
}
