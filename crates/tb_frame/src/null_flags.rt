//! In which keys absent fields match absent ones.
ghost use Rattle.std.specs.Prelude.{◌≡◌, IfOk, map};
ghost use Rattle.tb_value.specs.Promise.Pairs.{row_numbers};
ghost use Rattle.tb_frame.specs.Promise.Join.{flag_at};

use std::alloc::Global;
use std::marker::Model;
use tb_value::OutOfMemory;

/// An own list of truth values.
#[derive(Debug, Drop)]
pub struct Flags {
    flags: Vec<bool>,
}

impl Model for Flags {
    ghost use Rattle.std.specs.Prelude.{Bool, List};

    ghost Value = { List Bool };

    ghost view = { λ f. f.flags.items };
}

impl Flags {
    /// The flags as they are. It takes no memory.
    pub fn from_vec(flags: Vec<bool>) -> Flags
        ensures { result ≡ flags.items }
    {
        Flags { flags }
    }

    /// The flags, lent.
    pub fn as_slice(&self) -> &[bool]
        ensures { result.now ≡ self.now }
    {
        self.flags.as_slice()
    }

    /// An equal list.
    pub fn copy(&self, alloc: Global) -> Result<Flags, OutOfMemory>
        ensures { IfOk result (λ f. f ≡ self.now) }
    {
        Ok(Flags::from_vec(Vec::from_slice(alloc, self.as_slice())?))
    }
}

impl PartialEq for Flags {
    ghost use Rattle.std.proofs.Common.{rules};
    ghost use Rattle.std.specs.Bool.{beq};
    ghost use Rattle.std.specs.Cmp.Rules.{comparing};
    ghost use lib.Pointwise.{pointwise};

    ghost eq = { pointwise beq };

    ghost laws = { Prim.search (comparing, rules) };

    fn eq(&self, other: &Flags) -> bool {
        self.flags == other.flags
    }
}

impl Eq for Flags {
    ghost use Rattle.std.proofs.Common.{rules};
    ghost use Rattle.std.specs.Cmp.Rules.{comparing};

    ghost laws = { Prim.search (comparing, rules) };
}

/// Whether absent keys match absent keys.
#[derive(PartialEq, Eq, Debug, Drop)]
pub enum JoinNulls {
    /// The same for each key.
    All(bool),
    /// A flag for each key.
    Each(Flags),
}

impl JoinNulls {
    /// Whether absent keys match at this place, counted from 0. Beyond the flags they don't.
    pub fn flag_at(&self, place: usize) -> bool
        ensures { result ≡ flag_at self.now place }
    {
        match self {
            JoinNulls::All(flag) => *flag,
            JoinNulls::Each(flags) => match flags.as_slice().get(place) {
                Some(flag) => *flag,
                None => false,
            },
        }
    }

    /// The flags of so many keys.
    pub fn flags(&self, alloc: Global, keys: usize) -> Result<Vec<bool>, OutOfMemory>
        ensures { IfOk result (λ v. v.items ≡ map (flag_at self.now) (row_numbers keys)) }
    {
        let mut flags = Vec::with_capacity(alloc, keys)?;
        for place in 0..keys {
            flags.push(self.flag_at(place))?;
        }
        Ok(flags)
    }

    /// An equal one.
    pub fn copy(&self, alloc: Global) -> Result<JoinNulls, OutOfMemory>
        ensures { IfOk result (λ n. n ≡ self.now) }
    {
        match self {
            JoinNulls::All(flag) => Ok(JoinNulls::All(*flag)),
            JoinNulls::Each(flags) => Ok(JoinNulls::Each(flags.copy(alloc)?)),
        }
    }
}
