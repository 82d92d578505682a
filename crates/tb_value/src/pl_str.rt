//! Texts.
ghost use Rattle.std.specs.Prelude.{◌≡◌, ◌++◌, IfOk};

use crate::error::OutOfMemory;
use std::alloc::Global;
use std::cmp::Ordering;
use std::hash::{Hash, Hasher};
use std::marker::Model;

/// A text, seen as its bytes. Texts are ordered by their bytes.
#[derive(Debug, Drop)]
pub struct PlSmallStr {
    text: String,
}

impl Model for PlSmallStr {
    ghost use Rattle.std.specs.Prelude.{ℕ, List, string_bytes};

    ghost Value = { List ℕ };

    ghost view = { λ s. string_bytes s.text };
}

impl PlSmallStr {
    /// An own copy of the text.
    pub fn from_str(alloc: Global, text: &str) -> Result<PlSmallStr, OutOfMemory>
        ensures { IfOk result (λ s. s ≡ text.now) }
    {
        Ok(PlSmallStr {
            text: String::from_str(alloc, text)?,
        })
    }

    /// The text, lent.
    pub fn as_str(&self) -> &str
        ensures { result.now ≡ self.now }
    {
        self.text.as_str()
    }

    /// An equal text.
    pub fn copy(&self, alloc: Global) -> Result<PlSmallStr, OutOfMemory>
        ensures { IfOk result (λ s. s ≡ self.now) }
    {
        PlSmallStr::from_str(alloc, self.as_str())
    }

    /// This text with another behind it.
    pub fn followed_by(&self, alloc: Global, suffix: &str) -> Result<PlSmallStr, OutOfMemory>
        ensures { IfOk result (λ s. s ≡ self.now ++ suffix.now) }
    {
        let mut text = String::from_str(alloc, self.as_str())?;
        text.push_str(suffix)?;
        Ok(PlSmallStr { text })
    }
}

impl PartialEq for PlSmallStr {
    ghost use Rattle.std.specs.Prelude.{◌==◌};
    ghost use Rattle.std.proofs.Common.{rules};
    ghost use Rattle.std.specs.Cmp.Rules.{comparing};
    ghost use lib.Pointwise.{pointwise};

    ghost eq = { pointwise ◌==◌ };

    ghost laws = { Prim.search (comparing, rules) };

    fn eq(&self, other: &PlSmallStr) -> bool {
        self.text == other.text
    }
}

impl Eq for PlSmallStr {
    ghost use Rattle.std.proofs.Common.{rules};
    ghost use Rattle.std.specs.Cmp.Rules.{comparing};

    ghost laws = { Prim.search (comparing, rules) };
}

impl Hash for PlSmallStr {
    ghost use Rattle.std.proofs.Common.{rules};
    ghost use Rattle.std.specs.Hash as fed;
    ghost use Rattle.std.specs.Cmp.Rules.{hashing};

    ghost hash_input = { fed.str };

    ghost respects_eq = { Prim.search (hashing, rules) };

    fn hash<H: Hasher>(&self, state: &mut H) {
        self.text.hash(state);
    }
}

impl Ord for PlSmallStr {
    ghost use Rattle.std.proofs.Common.{rules};
    ghost use Rattle.std.specs.Cmp.Rules.{comparing};
    ghost use Rattle.std.specs.Cmp.Lexicographic.{slice_cmp};
    ghost use Rattle.std.specs.Ordering.{nat_cmp};

    ghost cmp = { slice_cmp nat_cmp };

    ghost total = { Prim.search (comparing, rules) };

    ghost matches_partial_cmp = { Prim.search (comparing, rules) };

    ghost matches_eq = { Prim.search (comparing, rules) };

    fn cmp(&self, other: &PlSmallStr) -> Ordering {
        self.text.cmp(&other.text)
    }
}

impl PartialOrd for PlSmallStr {
    ghost use Rattle.std.proofs.Common.{rules};
    ghost use Rattle.std.specs.Cmp.{partial_order_from_own_ties};
    ghost use Rattle.std.specs.Cmp.Rules.{comparing};
    ghost use Rattle.std.specs.Cmp.Lexicographic.{slice_cmp};
    ghost use Rattle.std.specs.Ordering.{nat_cmp, as_partial_cmp};

    ghost partial_cmp = { as_partial_cmp (slice_cmp nat_cmp) };

    ghost laws = { partial_order_from_own_ties (Prim.search (comparing, rules)) (Prim.search (comparing, rules)) };

    fn partial_cmp(&self, other: &PlSmallStr) -> Option<Ordering> {
        Some(self.cmp(other))
    }
}
