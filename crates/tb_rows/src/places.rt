//! The first place of each code.
ghost use Rattle.std.specs.Prelude.{◌≡◌, ℕ, if◌then◌else◌, unwrap_or, IfOk, IfSome, OnOk, None, Some};
ghost use Rattle.std.specs.BTreeMap.{get, is_at};
ghost use Rattle.std.specs.Ordering.{nat_cmp};
ghost use Rattle.tb_rows.specs.Places.{AreRecent};

use std::alloc::Global;
use std::collections::BTreeMap;
use tb_value::{IdxSize, OutOfMemory};

// A power of two, so that the last bits of a code are its slot.
const SLOTS: usize = 8_192;

/// A code, and the first place that has it, if any is known.
#[derive(Clone, Copy)]
pub(crate) struct CodePlace {
    code: u64,
    place: Option<IdxSize>,
}

/// The first place of each code, in a map. In front of it stand slots, each of which holds the code that was asked for last
/// of those that share it: a map takes many steps for each code.
#[derive(Drop)]
pub(crate) struct CodePlaces {
    kept: BTreeMap<u64, IdxSize>,
    recent: Vec<CodePlace>,
}

// The place that a slot holds for a code.
fn held(slot: &CodePlace, code: u64) -> Option<IdxSize>
    ensures { IfSome result (λ i. (slot.now.code ≡ code) × (slot.now.place ≡ Some i)) }
{
    if slot.code == code { slot.place } else { None }
}

// The place that is kept for a code: this one, where none was.
fn kept_place(
    kept: &mut BTreeMap<u64, IdxSize>,
    code: u64,
    place: IdxSize,
) -> Result<IdxSize, OutOfMemory>
    ensures value { IfOk result (λ p. p ≡ unwrap_or (get nat_cmp kept.old code) place) }
    ensures own { IfOk result (λ p. get nat_cmp kept.new code ≡ Some p) }
    ensures kept { OnOk result
        ((q : ℕ)
        → get nat_cmp kept.new q
        ≡ (if is_at (nat_cmp code) q
        then Some (unwrap_or (get nat_cmp kept.old code) place)
        else get nat_cmp kept.old q)) }
{
    if let Some(first) = kept.get(&code) {
        return Ok(*first);
    }
    kept.insert(code, place)?;
    Ok(place)
}

impl CodePlaces {
    pub(crate) fn new(alloc: Global) -> Result<CodePlaces, OutOfMemory>
        ensures none { IfOk result (λ p. (q : ℕ) → get nat_cmp p.kept q ≡ None) }
        ensures recent { IfOk result AreRecent }
    {
        let empty = CodePlace {
            code: 0,
            place: None,
        };
        Ok(CodePlaces {
            kept: BTreeMap::new(alloc),
            recent: vec![in alloc; empty; SLOTS]?,
        })
    }

    /// How many codes there are.
    pub(crate) fn len(&self) -> usize {
        self.kept.len()
    }

    /// The first place of a code: this one, where none was.
    pub(crate) fn place_of(&mut self, code: u64, place: IdxSize) -> Result<IdxSize, OutOfMemory>
        requires { AreRecent self.old }
        ensures value { IfOk result (λ p. p ≡ unwrap_or (get nat_cmp self.old.kept code) place) }
        ensures kept { OnOk result
            ((q : ℕ)
            → get nat_cmp self.new.kept q
            ≡ (if is_at (nat_cmp code) q
            then Some (unwrap_or (get nat_cmp self.old.kept code) place)
            else get nat_cmp self.old.kept q)) }
        ensures recent { OnOk result (AreRecent self.new) }
    {
        let slot = code as usize % SLOTS;
        if let Some(first) = held(&self.recent[slot], code) {
            return Ok(first);
        }
        let first = kept_place(&mut self.kept, code, place)?;
        self.recent[slot] = CodePlace {
            code,
            place: Some(first),
        };
        Ok(first)
    }
}
