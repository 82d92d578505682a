//! For each key the ids of the rows of both sides that have it.
ghost use Rattle.std.specs.Prelude.{◌≡◌, ◌&&◌, ◌++◌, ◌∷◌, [], IfOk, nat_eq, not, true, OnErr, OnOk, if◌then◌else◌};
ghost use Rattle.std.specs.List.{list_any};
ghost use Rattle.std.specs.List.Sorted.{IsNonDecreasing};
ghost use Rattle.tb_value.specs.See.{datum};
ghost use Rattle.tb_delta.specs.Groups.{ids_at, is_side, side_ids, ties, without, without_all, without_where, AreAscending, IsAscending};
ghost use Rattle.tb_delta.specs.Promise.State.{other};
ghost use Rattle.tb_delta.specs.declared.key.RowKey.{RowKey};
ghost use Rattle.tb_value.specs.declared.error.Side.{Side};

use crate::key::RowKey;
use std::alloc::Global;
use std::collections::BTreeMap;
use std::mem;
use tb_value::{OutOfMemory, Side};

// The ids of the rows that have one key, of each side ascending.
#[derive(Drop)]
pub(crate) struct Group {
    left: Vec<u32>,
    right: Vec<u32>,
}

// The groups of all keys.
#[derive(Drop)]
pub(crate) struct Groups {
    pub groups: BTreeMap<RowKey, Group>,
}

// Out of lists of at most so many ids one is taken at once, since they are moved at no cost.
const FEW_IDS: usize = 64;

// What a step finds under its key: the ids of the other side, and whether its own one was taken out.
#[derive(Drop)]
pub(crate) struct Taken {
    pub told: Result<Vec<u32>, OutOfMemory>,
    pub is_out: bool,
}

pub(crate) fn other(side: Side) -> Side
    ensures { result ≡ other side }
{
    match side {
        Side::Left => Side::Right,
        Side::Right => Side::Left,
    }
}

// The ids, copied where they are told.
fn copied(alloc: Global, ids: &[u32], tells: bool) -> Result<Vec<u32>, OutOfMemory>
    ensures { IfOk result (λ v. v.items ≡ (if tells then ids.now else [])) }
{
    if tells {
        Ok(Vec::from_slice(alloc, ids)?)
    } else {
        Ok(Vec::new(alloc))
    }
}

// Takes a number out of ascending ones.
fn take_out_one(ids: &mut Vec<u32>, id: u32)
    requires { IsAscending ids.old.items }
    ensures { ids.new.items ≡ without id ids.old.items }
{
    if let Ok(place) = ids.binary_search(&id) {
        ids.remove(place);
    }
}

// Whether a number is not among others in order.
fn is_absent(gone: &[u32], id: u32) -> bool
    ensures { IsNonDecreasing gone.now → result ≡ not (list_any (nat_eq id) gone.now) }
{
    gone.binary_search(&id).is_err()
}

// Takes all numbers of a list out of ascending ones.
fn take_out(ids: &mut Vec<u32>, gone: &[u32])
    requires ascend { IsAscending ids.old.items }
    requires in_order { IsNonDecreasing gone.now }
    ensures { ids.new.items ≡ without_all gone.now ids.old.items }
{
    match gone {
        [id] => take_out_one(ids, *id),
        _ => ids.retain(|id| is_absent(gone, *id)),
    }
}

impl Group {
    fn of(alloc: Global, side: Side, id: u32) -> Result<Group, OutOfMemory>
        ensures { IfOk result (λ g.
            (s : Side) → side_ids s g ≡ (if is_side side s then id ∷ [] else [])) }
    {
        let mut group = Group {
            left: Vec::new(alloc),
            right: Vec::new(alloc),
        };
        group.push(side, id)?;
        Ok(group)
    }

    fn ids(&self, side: Side) -> &[u32]
        ensures { result.now ≡ side_ids side self.now }
    {
        match side {
            Side::Left => &self.left,
            Side::Right => &self.right,
        }
    }

    fn push(&mut self, side: Side, id: u32) -> Result<(), OutOfMemory>
        ensures ok { OnOk result
            ((s : Side)
            → side_ids s self.new
            ≡ (if is_side side s
            then side_ids s self.old ++ id ∷ []
            else side_ids s self.old)) }
        ensures err { OnErr result ((s : Side) → side_ids s self.new ≡ side_ids s self.old) }
    {
        match side {
            Side::Left => self.left.push(id)?,
            Side::Right => self.right.push(id)?,
        }
        Ok(())
    }

    // The group of the ids of a side.
    fn of_ids(alloc: Global, side: Side, ids: &[u32]) -> Result<Group, OutOfMemory>
        ensures { IfOk result (λ g.
            (s : Side) → side_ids s g ≡ (if is_side side s then ids.now else [])) }
    {
        let own = Vec::from_slice(alloc, ids)?;
        let others = Vec::new(alloc);
        match side {
            Side::Left => Ok(Group {
                left: own,
                right: others,
            }),
            Side::Right => Ok(Group {
                left: others,
                right: own,
            }),
        }
    }

    // Puts ids behind those of their side.
    fn extend(&mut self, side: Side, ids: &[u32]) -> Result<(), OutOfMemory>
        ensures { OnOk result
            ((s : Side)
            → side_ids s self.new
            ≡ (if is_side side s
            then side_ids s self.old ++ ids.now
            else side_ids s self.old)) }
    {
        match side {
            Side::Left => self.left.extend_from_slice(ids)?,
            Side::Right => self.right.extend_from_slice(ids)?,
        }
        Ok(())
    }

    // Puts an id behind those of its side, and answers those of the other side, where they are told.
    fn put(
        &mut self,
        alloc: Global,
        side: Side,
        id: u32,
        tells: bool,
    ) -> Result<Vec<u32>, OutOfMemory>
        ensures ok { OnOk result
            ((s : Side)
            → side_ids s self.new
            ≡ (if is_side side s
            then side_ids s self.old ++ id ∷ []
            else side_ids s self.old)) }
        ensures told { IfOk result (λ v.
            v.items ≡ (if tells then side_ids (other side) self.old else [])) }
        ensures err { OnErr result ((s : Side) → side_ids s self.new ≡ side_ids s self.old) }
    {
        let told = copied(alloc, self.ids(other(side)), tells)?;
        self.push(side, id)?;
        Ok(told)
    }

    // Whether no row has the key.
    fn is_empty(&self) -> bool
        ensures { result ≡ true → (s : Side) → side_ids s self.now ≡ [] }
    {
        self.left.is_empty() && self.right.is_empty()
    }

    fn take_out(&mut self, side: Side, gone: &[u32])
        requires ascend { IsAscending (side_ids side self.old) }
        requires in_order { IsNonDecreasing gone.now }
        ensures { (s : Side)
            → side_ids s self.new
            ≡ (if is_side side s
            then without_all gone.now (side_ids s self.old)
            else side_ids s self.old) }
    {
        match side {
            Side::Left => take_out(&mut self.left, gone),
            Side::Right => take_out(&mut self.right, gone),
        }
    }

    // Takes an id out where those of its side are few, and answers those of the other side, where they are told.
    fn take_few(&mut self, alloc: Global, side: Side, id: u32, tells: bool) -> Taken
        requires { IsAscending (side_ids side self.old) }
        ensures ids { (s : Side)
            → side_ids s self.new
            ≡ (if is_side side s
            then without_where result.is_out id (side_ids s self.old)
            else side_ids s self.old) }
        ensures told { IfOk result.told (λ v.
            v.items ≡ (if tells then side_ids (other side) self.old else [])) }
    {
        let told = copied(alloc, self.ids(other(side)), tells);
        if self.ids(side).len() > FEW_IDS {
            return Taken {
                told,
                is_out: false,
            };
        }
        self.take_out(side, &[id]);
        Taken { told, is_out: true }
    }

    // Takes all ids of a side.
    fn take_all(&mut self, alloc: Global, side: Side) -> Vec<u32>
        ensures taken { result.items ≡ side_ids side self.old }
        ensures others { (s : Side)
            → side_ids s self.new ≡ (if is_side side s then [] else side_ids s self.old) }
    {
        match side {
            Side::Left => mem::replace(&mut self.left, Vec::new(alloc)),
            Side::Right => mem::replace(&mut self.right, Vec::new(alloc)),
        }
    }

    /// The ids of the left side and of the right one.
    pub(crate) fn into_lists(self) -> (Vec<u32>, Vec<u32>)
        ensures left { result.0.items ≡ side_ids Side.Left self }
        ensures right { result.1.items ≡ side_ids Side.Right self }
    {
        (self.left, self.right)
    }
}

impl Groups {
    pub(crate) fn new(alloc: Global) -> Groups
        ensures { (s : Side) → (k : RowKey) → ids_at result s k ≡ [] }
    {
        Groups {
            groups: BTreeMap::new(alloc),
        }
    }

    /// The ids of the rows of a side that have the key.
    pub(crate) fn ids(&self, side: Side, key: &RowKey) -> &[u32]
        ensures { result.now ≡ ids_at self.now side key.now }
    {
        match self.groups.get(key) {
            Some(group) => group.ids(side),
            None => &[],
        }
    }

    /// The same ids, copied where they are told.
    pub(crate) fn copied(
        &self,
        alloc: Global,
        side: Side,
        key: &RowKey,
        tells: bool,
    ) -> Result<Vec<u32>, OutOfMemory>
        ensures { IfOk result (λ v.
            v.items ≡ (if tells then ids_at self.now side key.now else [])) }
    {
        copied(alloc, self.ids(side, key), tells)
    }

    /// Puts an id behind those of its side under the key, and answers those of the other side, where they are told. After a
    /// refusal all are as they were.
    pub(crate) fn put(
        &mut self,
        alloc: Global,
        side: Side,
        key: &RowKey,
        id: u32,
        tells: bool,
    ) -> Result<Vec<u32>, OutOfMemory>
        ensures ok { OnOk result ((s : Side) → (k : RowKey) → ids_at self.new s k
            ≡ (if is_side side s && ties (datum key.now.value) (datum k.value)
            then ids_at self.old s k ++ id ∷ []
            else ids_at self.old s k)) }
        ensures told { IfOk result (λ v.
            v.items ≡ (if tells then ids_at self.old (other side) key.now else [])) }
        ensures err { OnErr result
            ((s : Side) → (k : RowKey) → ids_at self.new s k ≡ ids_at self.old s k) }
    {
        match self.groups.get_mut(key) {
            Some(group) => group.put(alloc, side, id, tells),
            None => {
                let group = Group::of(alloc, side, id)?;
                let key = RowKey::of(alloc, &key.value)?;
                self.groups.insert(key, group)?;
                Ok(Vec::new(alloc))
            }
        }
    }

    /// Puts ids behind those of their side under the key.
    pub(crate) fn add_all(
        &mut self,
        alloc: Global,
        side: Side,
        key: RowKey,
        ids: &[u32],
    ) -> Result<(), OutOfMemory>
        ensures { OnOk result ((s : Side) → (k : RowKey) → ids_at self.new s k
            ≡ (if is_side side s && ties (datum key.value) (datum k.value)
            then ids_at self.old s k ++ ids.now
            else ids_at self.old s k)) }
    {
        match self.groups.get_mut(&key) {
            Some(group) => group.extend(side, ids),
            None => {
                let group = Group::of_ids(alloc, side, ids)?;
                self.groups.insert(key, group)?;
                Ok(())
            }
        }
    }

    /// Puts an id behind those of its side under the key. After a refusal all are as they were.
    pub(crate) fn add(
        &mut self,
        alloc: Global,
        side: Side,
        key: &RowKey,
        id: u32,
    ) -> Result<(), OutOfMemory>
        ensures ok { OnOk result ((s : Side) → (k : RowKey) → ids_at self.new s k
            ≡ (if is_side side s && ties (datum key.now.value) (datum k.value)
            then ids_at self.old s k ++ id ∷ []
            else ids_at self.old s k)) }
        ensures err { OnErr result
            ((s : Side) → (k : RowKey) → ids_at self.new s k ≡ ids_at self.old s k) }
    {
        self.put(alloc, side, key, id, false)?;
        Ok(())
    }

    /// Takes an id out where those of its side under the key are few, and answers those of the other side, where they are told.
    /// Taking out takes no memory.
    pub(crate) fn take_few(
        &mut self,
        alloc: Global,
        side: Side,
        key: &RowKey,
        id: u32,
        tells: bool,
    ) -> Taken
        requires { AreAscending self.old }
        ensures ids { (s : Side) → (k : RowKey) → ids_at self.new s k
            ≡ (if is_side side s && ties (datum key.now.value) (datum k.value)
            then without_where result.is_out id (ids_at self.old s k)
            else ids_at self.old s k) }
        ensures told { IfOk result.told (λ v.
            v.items ≡ (if tells then ids_at self.old (other side) key.now else [])) }
    {
        let Some(group) = self.groups.get_mut(key) else {
            return Taken {
                told: Ok(Vec::new(alloc)),
                is_out: true,
            };
        };
        let taken = group.take_few(alloc, side, id, tells);
        if !group.is_empty() {
            return taken;
        }
        self.groups.remove(key);
        taken
    }

    /// Takes ids, which are in order, out of those of their side under the key. It takes no memory.
    pub(crate) fn take_out(&mut self, side: Side, key: &RowKey, gone: &[u32])
        requires ascend { AreAscending self.old }
        requires in_order { IsNonDecreasing gone.now }
        ensures { (s : Side) → (k : RowKey) → ids_at self.new s k
            ≡ (if is_side side s && ties (datum key.now.value) (datum k.value)
            then without_all gone.now (ids_at self.old s k)
            else ids_at self.old s k) }
    {
        if let Some(group) = self.groups.get_mut(key) {
            group.take_out(side, gone);
            if group.is_empty() {
                self.groups.remove(key);
            }
        }
    }

    /// Takes ids, in whichever order, out of those of their side under the key. It takes no memory.
    pub(crate) fn take_list_out(&mut self, side: Side, key: &RowKey, mut gone: Vec<u32>)
        requires { AreAscending self.old }
        ensures { (s : Side) → (k : RowKey) → ids_at self.new s k
            ≡ (if is_side side s && ties (datum key.now.value) (datum k.value)
            then without_all gone.items (ids_at self.old s k)
            else ids_at self.old s k) }
    {
        gone.sort_unstable();
        self.take_out(side, key, &gone);
    }

    /// Takes all ids of a side under the key. It takes no memory.
    pub(crate) fn take_all(&mut self, alloc: Global, side: Side, key: &RowKey) -> Vec<u32>
        ensures taken { result.items ≡ ids_at self.old side key.now }
        ensures others { (s : Side) → (k : RowKey) → ids_at self.new s k
            ≡ (if is_side side s && ties (datum key.now.value) (datum k.value)
            then []
            else ids_at self.old s k) }
    {
        match self.groups.get_mut(key) {
            Some(group) => group.take_all(alloc, side),
            None => Vec::new(alloc),
        }
    }
}
