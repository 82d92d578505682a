//! Aggregates that are asked for more than once of one column, which are made once.
ghost use Rattle.std.specs.Prelude.{◌≡◌, true, IfOk};
ghost use Rattle.tb_group.specs.Once.{AreAlike, AreOnce, IsAlikeAt, IsSeated};

use crate::lookup::AskedColumn;
use std::alloc::Global;
use std::collections::BTreeMap;
use tb_agg::Aggregate;
use tb_value::OutOfMemory;

/// The aggregates that are made, and for each that is asked for the place of the one that is made for it.
#[derive(Drop)]
pub(crate) struct Once<'a> {
    pub made: Vec<AskedColumn<'a>>,
    pub seats: Vec<usize>,
}

// The name of a column, and the number of an aggregate of it.
type Source<'a> = (&'a str, u8);

fn source<'a>(one: &AskedColumn<'a>) -> Source<'a> {
    let number = match one.asked.agg {
        Aggregate::First => 0,
        Aggregate::Last => 1,
        Aggregate::Sum => 2,
        Aggregate::Min => 3,
        Aggregate::Max => 4,
        Aggregate::Count => 5,
    };
    (one.asked.column.as_str(), number)
}

fn are_alike(a: &AskedColumn<'_>, b: &AskedColumn<'_>) -> bool
    ensures { result ≡ true → AreAlike a.now b.now }
{
    a.asked.agg == b.asked.agg && a.asked.column == b.asked.column
}

// Whether one that is alike stands at the place.
fn is_alike_at(made: &[AskedColumn<'_>], seat: usize, one: &AskedColumn<'_>) -> bool
    ensures { result ≡ true → IsAlikeAt made.now seat one.now }
{
    seat < made.len() && are_alike(&made[seat], one)
}

// The place of one that is alike, which is put behind the others where it is the first of its kind.
fn seat<'a>(
    made: &mut Vec<AskedColumn<'a>>,
    seen: &mut BTreeMap<Source<'a>, usize>,
    one: &AskedColumn<'a>,
) -> Result<usize, OutOfMemory>
    ensures { IfOk result (IsSeated made.old.items made.new.items one.now) }
{
    let source = source(one);
    if let Some(seat) = seen.get(&source) {
        if is_alike_at(made.as_slice(), *seat, one) {
            return Ok(*seat);
        }
    }
    let seat = made.len();
    seen.insert(source, seat)?;
    made.push(*one)?;
    Ok(seat)
}

/// The aggregates, each made once.
pub(crate) fn made_once<'a>(
    alloc: Global,
    asked: &[AskedColumn<'a>],
) -> Result<Once<'a>, OutOfMemory>
    ensures { IfOk result (AreOnce asked.now) }
{
    let mut seen = BTreeMap::new(alloc);
    let mut made = Vec::new(alloc);
    let mut seats = Vec::with_capacity(alloc, asked.len())?;
    for one in asked {
        seats.push(seat(&mut made, &mut seen, one)?)?;
    }
    Ok(Once { made, seats })
}
