//! An item that comes to lie elsewhere in its scene or group.
ghost use Rattle.std.specs.Prelude.{◌≡◌, ◌≤◌, ◌<◌, ◌+◌, ◌++◌, [], ◌∷◌, length, filter, take, drop};
ghost use Rattle.std.specs.Prelude.{not, remove, slice_index_or};
ghost use Rattle.mix_model.specs.declared.item.Item.{Item};
ghost use Rattle.mix_model.specs.Rows.{has_id};

use mix_base::ItemId;
use mix_model::Item;

/// Takes the item at an index, and puts it on top.
fn raise(items: &mut Vec<Item>, at: usize)
    requires within { at < length items.old.items }
    ensures items { (d : Item) → items.new.items
        ≡ remove items.old.items at ++ slice_index_or items.old.items at d ∷ [] }
{
    let item = items.remove(at);
    items.push_reserved(item);
}

/// Brings the items of this id to the top; the others stay below in their order. It answers how
/// many others there are.
fn part(items: &mut Vec<Item>, id: ItemId) -> usize
    ensures count { result ≡ length (filter (λ i. not (has_id id i)) items.old.items) }
    ensures items { items.new.items ≡ filter (λ i. not (has_id id i)) items.old.items
        ++ filter (has_id id) items.old.items }
{
    let mut others = 0;
    for _ in 0..items.len() {
        let here = items[others].id;
        if here.0 == id.0 {
            raise(items, others);
        } else {
            others += 1;
        }
    }
    others
}

/// Brings so many items from an index on to the top, in their order.
fn raise_some(items: &mut Vec<Item>, at: usize, count: usize)
    requires within { at + count ≤ length items.old.items }
    ensures items { items.new.items ≡ take at items.old.items
        ++ (drop (at + count) items.old.items ++ take count (drop at items.old.items)) }
{
    for _ in 0..count {
        raise(items, at);
    }
}

/// Moves the item of this id to an index; the others keep their order.
pub fn move_to(items: &mut Vec<Item>, id: ItemId, index: usize)
    ensures items { items.new.items
        ≡ take index (filter (λ i. not (has_id id i)) items.old.items)
        ++ (filter (has_id id) items.old.items
        ++ drop index (filter (λ i. not (has_id id i)) items.old.items)) }
{
    let others = part(items, id);
    if index < others {
        raise_some(items, index, others - index);
    }
}
