//! Names, and sets of them.
ghost use Rattle.std.specs.Prelude.{◌≡◌, ◌||◌, ◌++◌, not, false, map, IfOk, OnOk, OnErr};
ghost use Rattle.tb_value.specs.Promise.Names.{Name, same_name};
ghost use Rattle.tb_value.specs.Refusals.{Settles};
ghost use Rattle.tb_frame.specs.Promise.Naming.{is_among};
ghost use Rattle.tb_frame.specs.NameSets.{has_name};
ghost use Rattle.tb_frame.specs.Promise.Refusal.{repeated_among};

use std::alloc::Global;
use std::collections::BTreeSet;
use tb_value::{OutOfMemory, PlSmallStr, PolarsError, PolarsResult};

/// A set of names, for asking whether a name is among many.
#[derive(Drop)]
pub struct NameSet<'a> {
    names: BTreeSet<&'a str>,
}

impl<'a> NameSet<'a> {
    /// No names.
    pub fn new(alloc: Global) -> NameSet<'a>
        ensures { (n : Name) → has_name result n ≡ false }
    {
        NameSet {
            names: BTreeSet::new(alloc),
        }
    }

    /// Adds the name, and says whether it was new.
    pub fn insert(&mut self, name: &'a PlSmallStr) -> Result<bool, OutOfMemory>
        ensures added { IfOk result (λ added. added ≡ not (has_name self.old name.now)) }
        ensures names { OnOk result
            ((n : Name) → has_name self.new n ≡ (same_name name.now n || has_name self.old n)) }
        ensures err { OnErr result ((n : Name) → has_name self.new n ≡ has_name self.old n) }
    {
        Ok(self.names.insert(name.as_str())?)
    }

    /// Whether the name was added.
    pub fn contains(&self, name: &PlSmallStr) -> bool
        ensures { result ≡ has_name self.now name.now }
    {
        self.names.contains(name.as_str())
    }
}

/// The set of these names.
pub fn name_set<'a>(alloc: Global, names: &'a [PlSmallStr]) -> Result<NameSet<'a>, OutOfMemory>
    ensures { IfOk result (λ s. (n : Name) → has_name s n ≡ is_among names.now n) }
{
    let mut set = NameSet::new(alloc);
    for name in names {
        set.insert(name)?;
    }
    Ok(set)
}

/// Refuses the first repeated one of the names that are lent (Duplicate).
pub fn check_distinct(alloc: Global, names: &[&PlSmallStr]) -> PolarsResult<()>
    ensures { Settles result (repeated_among (map (λ n. n.now) names.now)) }
{
    let mut seen = NameSet::new(alloc);
    for name in names {
        if !seen.insert(name)? {
            return Err(PolarsError::Duplicate(name.copy(alloc)?));
        }
    }
    Ok(())
}

/// Puts the names behind the others.
pub fn push_names<'a>(
    names: &mut Vec<&'a PlSmallStr>,
    more: &'a [PlSmallStr],
) -> Result<(), OutOfMemory>
    ensures { OnOk result
        (map (λ n. n.now) names.new.items ≡ map (λ n. n.now) names.old.items ++ more.now) }
{
    for name in more {
        names.push(name)?;
    }
    Ok(())
}

/// The names once more, in their order.
pub fn copy_names(alloc: Global, names: &[PlSmallStr]) -> Result<Vec<PlSmallStr>, OutOfMemory>
    ensures { IfOk result (λ v. v.items ≡ names.now) }
{
    let mut copies = Vec::with_capacity(alloc, names.len())?;
    for name in names {
        copies.push(name.copy(alloc)?)?;
    }
    Ok(copies)
}

pub(crate) fn lend_names(
    alloc: Global,
    names: &[PlSmallStr],
) -> Result<Vec<&PlSmallStr>, OutOfMemory>
    ensures { IfOk result (λ v. map (λ n. n.now) v.items ≡ names.now) }
{
    let mut lent = Vec::with_capacity(alloc, names.len())?;
    push_names(&mut lent, names)?;
    Ok(lent)
}

/// Refuses the first repeated name (Duplicate).
pub fn check_repeated(alloc: Global, names: &[PlSmallStr]) -> PolarsResult<()>
    ensures { Settles result (repeated_among names.now) }
{
    check_distinct(alloc, &lend_names(alloc, names)?)
}
