//! Reading a request to its end, within its limit.
ghost use Rattle.std.specs.Prelude.{◌≡◌, IfOk};
ghost use Rattle.tb_run.specs.declared.reading.ReadError.TheVariants.{Failed, OutOfMemory};
ghost use Rattle.tb_run.specs.Reading.{WasRead, CountsReads};

use crate::ends::{self, Source};
use std::alloc::{AllocError, Global};
use tb_value::MAX_INPUT;

const ROOM: usize = 8192;

/// What a source gave.
#[derive(Drop)]
pub enum Input {
    /// All bytes up to the end.
    Whole(Vec<u8>),
    /// More bytes than a request may have.
    TooLong,
}

/// Why no input came.
#[derive(Clone, Copy, Debug, PartialEq, Eq)]
pub enum ReadError {
    Failed,
    OutOfMemory,
}

impl From<ends::Failed> for ReadError {
    ghost from_gives = { λ _ e. e ≡ Failed };

    fn from(_: ends::Failed) -> Self {
        ReadError::Failed
    }
}

impl From<AllocError> for ReadError {
    ghost from_gives = { λ _ e. e ≡ OutOfMemory };

    fn from(_: AllocError) -> Self {
        ReadError::OutOfMemory
    }
}

impl From<tb_value::OutOfMemory> for ReadError {
    ghost from_gives = { λ _ e. e ≡ OutOfMemory };

    fn from(_: tb_value::OutOfMemory) -> Self {
        ReadError::OutOfMemory
    }
}

pub(crate) fn read_request<S: Source>(alloc: Global, source: &mut S) -> Result<Input, ReadError>
    ensures read { IfOk result (WasRead (S.left source.old) (S.left source.new)) }
    ensures count { CountsReads S.is_exact (S.faults source.old) (S.faults source.new) result }
{
    let mut bytes = Vec::new(alloc);
    let mut room = [0u8; ROOM];
    while bytes.len() <= MAX_INPUT {
        let most = ROOM.min(MAX_INPUT + 1 - bytes.len());
        let taken = source.read(&mut room[..most])?;
        if taken == 0 {
            return Ok(Input::Whole(bytes));
        }
        bytes.extend_from_slice(&room[..taken])?;
    }
    Ok(Input::TooLong)
}
