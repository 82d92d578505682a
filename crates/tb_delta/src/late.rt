//! Groups out of which ids are taken when they are asked for.
//!
//! An id that goes out of a long list is put down beside the groups, and goes when a step asks for the list, together with
//! all others that went since. So a step costs what it answers, and a removal no more than the sorting of its id.
ghost use Rattle.std.specs.Prelude.{◌≡◌, ◌-◌, [], IfOk, if◌then◌else◌};
ghost use Rattle.tb_value.specs.declared.error.Side.{Side};
ghost use Rattle.tb_delta.specs.Groups.{ids_at, ties, AreAscending};
ghost use Rattle.tb_value.specs.See.{datum};
ghost use Rattle.tb_delta.specs.Late.{count_gone, ids_left, IsTakenOut, KeepsIds};
ghost use Rattle.tb_delta.specs.Promise.State.{other};
ghost use Rattle.tb_delta.specs.declared.key.RowKey.{RowKey};

use crate::groups::{Groups, Taken, other};
use crate::key::RowKey;
use std::alloc::Global;
use tb_value::{OutOfMemory, Side};

// The groups, and the ids that are still to be taken out of them.
#[derive(Drop)]
pub(crate) struct LateGroups {
    pub groups: Groups,
    pub gone: Groups,
}

impl LateGroups {
    // Takes out of the ids of a side under the key those that are gone. It takes no memory.
    fn settle(&mut self, alloc: Global, side: Side, key: &RowKey)
        requires { AreAscending self.old.groups }
        ensures keeps { KeepsIds self.old self.new }
        ensures settled { ids_at self.new.groups side key.now ≡ ids_left self.old side key.now }
    {
        let gone = self.gone.take_all(alloc, side, key);
        if gone.is_empty() {
            return;
        }
        self.groups.take_list_out(side, key, gone);
    }

    /// Takes out of the ids of a side under the key those that are gone, where they are told. It takes no memory.
    pub(crate) fn settle_told(&mut self, alloc: Global, side: Side, key: &RowKey, tells: bool)
        requires { AreAscending self.old.groups }
        ensures keeps { KeepsIds self.old self.new }
        ensures settled { (if tells then ids_at self.new.groups side key.now else [])
            ≡ (if tells then ids_left self.old side key.now else []) }
    {
        if tells {
            self.settle(alloc, side, key);
        }
    }

    /// The ids of a side under the key, copied, where they are told.
    pub(crate) fn copied(
        &mut self,
        alloc: Global,
        side: Side,
        key: &RowKey,
        tells: bool,
    ) -> Result<Vec<u32>, OutOfMemory>
        requires { AreAscending self.old.groups }
        ensures keeps { KeepsIds self.old self.new }
        ensures ids { IfOk result (λ v.
            v.items ≡ (if tells then ids_left self.old side key.now else [])) }
    {
        self.settle_told(alloc, side, key, tells);
        self.groups.copied(alloc, side, key, tells)
    }

    // Puts down that an id is gone, or takes it out where memory is wanting for that.
    fn take_out_later(&mut self, alloc: Global, side: Side, key: &RowKey, id: u32)
        requires { AreAscending self.old.groups }
        ensures { IsTakenOut self.old side (ties (datum key.now.value)) id self.new }
    {
        match self.gone.add(alloc, side, key, id) {
            Ok(()) => (),
            Err(OutOfMemory) => self.groups.take_out(side, key, &[id]),
        }
    }

    /// Takes an id out of those of its side under the key, at once where they are few, and answers those of the other side, where
    /// they are told. The id is out for all that where memory is wanting for telling.
    pub(crate) fn take_out(
        &mut self,
        alloc: Global,
        side: Side,
        key: &RowKey,
        id: u32,
        tells: bool,
    ) -> Result<Vec<u32>, OutOfMemory>
        requires { AreAscending self.old.groups }
        ensures taken { IsTakenOut self.old side (ties (datum key.now.value)) id self.new }
        ensures told { IfOk result (λ v.
            v.items ≡ (if tells then ids_left self.old (other side) key.now else [])) }
    {
        self.settle_told(alloc, other(side), key, tells);
        let Taken { told, is_out } = self.groups.take_few(alloc, side, key, id, tells);
        if is_out {
            return told;
        }
        self.take_out_later(alloc, side, key, id);
        told
    }

    // Takes out what is gone under the first key.
    fn settle_first(&mut self)
        requires { AreAscending self.old.groups }
        ensures keeps { KeepsIds self.old self.new }
        ensures fewer { count_gone self.new ≡ count_gone self.old - 1 }
    {
        if let Some((key, group)) = self.gone.groups.pop_first() {
            let (left, right) = group.into_lists();
            self.groups.take_list_out(Side::Left, &key, left);
            self.groups.take_list_out(Side::Right, &key, right);
        }
    }

    /// The groups, when all that is gone is taken out.
    pub(crate) fn settled(self) -> Groups
        requires { AreAscending self.groups }
        ensures ascend { AreAscending result }
        ensures ids { (s : Side) → (k : RowKey) → ids_at result s k ≡ ids_left self s k }
    {
        let mut late = self;
        let keys = late.gone.groups.len();
        for _ in 0..keys {
            late.settle_first();
        }
        late.groups
    }
}
