// Items of a vector that others take the place of.
ghost use Rattle.std.specs.Prelude.{◌≡◌, ◌+◌, ◌-◌, ◌≤◌, [], length, vec_len, vec_capacity, IfOk, OnOk, OnErr, slice_range};
ghost use Rattle.std.specs.List.{splice};
ghost use Rattle.std.specs.Vec.Iter.{into_iter_items, into_iter_len};

use std::alloc::AllocError;
use std::mem;
use std::vec::IntoIter;

/// What an iterator still has, put into a vector with room for it.
pub fn gathered<T: Drop>(mut taken: Vec<T>, gone: IntoIter<T>) -> Vec<T>
    requires empty { taken.items ≡ [] }
    requires room { vec_len taken + into_iter_len gone ≤ vec_capacity taken }
    ensures { result.items ≡ into_iter_items gone }
{
    for item in gone {
        taken.push_reserved(item);
    }
    taken
}

/// Puts `new` in place of the items from `from` up to before `to`, and gives those back. What
/// stands behind them moves at once where there is one item more or one less. Where memory is
/// wanting nothing changes.
pub fn exchange<T: Drop>(
    items: &mut Vec<T>,
    from: usize,
    to: usize,
    new: Vec<T>,
) -> Result<Vec<T>, AllocError>
    requires order { from ≤ to }
    requires within { to ≤ length items.old.items }
    ensures ok { OnOk result (items.new.items ≡ splice items.old.items from to new.items) }
    ensures taken { IfOk result (λ taken. taken.items ≡ slice_range items.old.items from to) }
    ensures err { OnErr result (items.new.items ≡ items.old.items) }
{
    if from == 0 && to == items.len() {
        return Ok(mem::replace(items, new));
    }
    if new.len() == to - from {
        return Ok(exchange_each(items, from, to, new));
    }
    if new.len() == to - from + 1 {
        return exchange_growing(items, from, to, new);
    }
    if new.len() + 1 == to - from {
        return exchange_shrinking(items, from, to, new);
    }
    let taken = Vec::with_capacity(*items.allocator(), to - from)?;
    let gone = items.splice(from..to, new)?;
    Ok(gathered(taken, gone))
}

// The same with as many items as stood there.
fn exchange_each<T: Drop>(items: &mut Vec<T>, from: usize, to: usize, mut new: Vec<T>) -> Vec<T>
    requires order { from ≤ to }
    requires within { to ≤ length items.old.items }
    requires same { length new.items ≡ to - from }
    ensures put { items.new.items ≡ splice items.old.items from to new.items }
    ensures taken { result.items ≡ slice_range items.old.items from to }
    ensures room { vec_capacity result ≡ vec_capacity new }
{
    items[from..to].swap_with_slice(new.as_mut_slice());
    new
}

// The same with one item more.
fn exchange_growing<T: Drop>(
    items: &mut Vec<T>,
    from: usize,
    to: usize,
    mut new: Vec<T>,
) -> Result<Vec<T>, AllocError>
    requires order { from ≤ to }
    requires within { to ≤ length items.old.items }
    requires more { length new.items ≡ to - from + 1 }
    ensures ok { OnOk result (items.new.items ≡ splice items.old.items from to new.items) }
    ensures taken { IfOk result (λ taken. taken.items ≡ slice_range items.old.items from to) }
    ensures err { OnErr result (items.new.items ≡ items.old.items) }
{
    let last = new.remove(to - from);
    items.insert(to, last)?;
    Ok(exchange_each(items, from, to, new))
}

// The same with one item less.
fn exchange_shrinking<T: Drop>(
    items: &mut Vec<T>,
    from: usize,
    to: usize,
    mut new: Vec<T>,
) -> Result<Vec<T>, AllocError>
    requires order { from ≤ to }
    requires within { to ≤ length items.old.items }
    requires fewer { length new.items + 1 ≡ to - from }
    ensures ok { OnOk result (items.new.items ≡ splice items.old.items from to new.items) }
    ensures taken { IfOk result (λ taken. taken.items ≡ slice_range items.old.items from to) }
    ensures err { OnErr result (items.new.items ≡ items.old.items) }
{
    new.reserve(1)?;
    let last = items.remove(to - 1);
    let mut taken = exchange_each(items, from, to - 1, new);
    taken.push_reserved(last);
    Ok(taken)
}
