//! How many workers and partitions there are, and the numbers that choose a path.
ghost use Rattle.std.specs.Prelude.{◌≡◌, ◌≤◌, IfOk, IfErr};
ghost use Rattle.tb_pool.specs.Faults.{IsFirstFault};
ghost use Rattle.tb_pool.specs.ExecView.{MayStand};

use std::marker::Model;
use thiserror::Error;

/// The most workers of an `Exec`, and the most partitions.
pub const MAX_WORKERS: u32 = 1_024;

/// How work is run, seen as five numbers. No answer of an operation depends on them.
#[derive(Clone, Copy, PartialEq, Eq, Debug)]
pub struct Exec {
    workers: u32,
    partitions: u32,
    small: u32,
    num: u32,
    den: u32,
}

impl Model for Exec {
    ghost use Rattle.tb_pool.specs.Promise.ExecView.{ExecView};
    ghost use Rattle.tb_pool.specs.ExecView.{MayStand};

    ghost Value = { ExecView };

    ghost view = { λ e. record { workers = e.workers; partitions = e.partitions; small = e.small; num = e.num; den = e.den } };

    ghost invariant = { λ e. MayStand e.workers e.partitions e.den };

    ghost inverse = { λ p. record { workers = p.workers; partitions = p.partitions; small = p.small; num = p.num; den = p.den } };
}

/// Why numbers make no `Exec`.
#[derive(PartialEq, Eq, Debug, Drop, Error)]
pub enum ExecFault {
    #[error("the number of workers is not 1 to 1024")]
    BadWorkers,
    #[error("the number of partitions is not 1 to 1024")]
    BadPartitions,
    #[error("the factor divides by 0")]
    BadFactor,
}

impl Exec {
    /// Refuses, in this order: a number of workers or of partitions that is not 1 to 1,024, and the divisor 0.
    pub fn new(
        workers: u32,
        partitions: u32,
        small: u32,
        num: u32,
        den: u32,
    ) -> Result<Exec, ExecFault>
        ensures ok { IfOk result (λ e. MayStand workers partitions den
            × (e ≡ record { workers = workers; partitions = partitions; small = small; num = num; den = den })) }
        ensures fault { IfErr result (λ f. IsFirstFault f workers partitions den) }
    {
        if workers < 1 || workers > MAX_WORKERS {
            return Err(ExecFault::BadWorkers);
        }
        if partitions < 1 || partitions > MAX_WORKERS {
            return Err(ExecFault::BadPartitions);
        }
        if den == 0 {
            return Err(ExecFault::BadFactor);
        }
        Ok(Exec {
            workers,
            partitions,
            small,
            num,
            den,
        })
    }

    /// Four workers, eight partitions, small below 256 rows, and the factor 1.
    pub fn standard() -> Exec
        ensures { result ≡ record { workers = 4; partitions = 8; small = 256; num = 1; den = 1 } }
    {
        Exec {
            workers: 4,
            partitions: 8,
            small: 256,
            num: 1,
            den: 1,
        }
    }

    pub fn workers(&self) -> u32
        ensures given { result ≡ self.now.workers }
        ensures some { 1 ≤ result }
        ensures most { result ≤ 1024 }
    {
        self.workers
    }

    pub fn partitions(&self) -> u32
        ensures given { result ≡ self.now.partitions }
        ensures some { 1 ≤ result }
        ensures most { result ≤ 1024 }
    {
        self.partitions
    }

    /// A table of fewer rows than this is small.
    pub fn small(&self) -> u32
        ensures { result ≡ self.now.small }
    {
        self.small
    }

    /// What the factor multiplies by.
    pub fn num(&self) -> u32
        ensures { result ≡ self.now.num }
    {
        self.num
    }

    /// What the factor divides by.
    pub fn den(&self) -> u32
        ensures given { result ≡ self.now.den }
        ensures some { 1 ≤ result }
    {
        self.den
    }
}
