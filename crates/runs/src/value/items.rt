// The items of a value.
ghost use Rattle.std.specs.Prelude.{◌≡◌, ◌+◌, ◌-◌, ◌<◌, ◌≤◌, [], ◌∷◌, ◌++◌, length, drop, slice_index_or, slice_range};
ghost use Rattle.runs.specs.Items.{roomy, passed, handle_in, bit_in, unit_item, Inner};
ghost use Rattle.runs.specs.Values.{held};
ghost use Rattle.runs.specs.declared.value.Item.TheVariants.{Leaf};

use super::{ITEMS, Item, Value};
use programs::program::Leaf as ProgramLeaf;

// How many items the first value takes.
fn first_span(items: &[Item]) -> usize
    requires { length items.now ≤ 15 }
    ensures span { result ≡ passed 1 items.now }
    ensures within { result ≤ length items.now }
{
    let mut left = 1usize;
    for (count, item) in items.iter().enumerate() {
        if left == 0 {
            return count;
        }
        if let Item::Tuple(parts) = item {
            left += usize::from(*parts);
        }
        left -= 1;
    }
    items.len()
}

impl From<ProgramLeaf> for Value {
    ghost from_gives = { λ leaf value. held value ≡ Leaf leaf ∷ [] };

    fn from(leaf: ProgramLeaf) -> Value {
        let mut value = Value::empty();
        value.push(Item::Leaf(leaf));
        value
    }
}

impl Value {
    // A value with no item yet.
    pub fn empty() -> Value
        ensures { held result ≡ [] }
    {
        Value {
            items: [Item::Leaf(ProgramLeaf::Unit); ITEMS],
            count: 0,
        }
    }

    // The items that it holds.
    fn as_slice(&self) -> &[Item]
        ensures items { result.now ≡ held self.now }
        ensures few { length result.now ≤ 15 }
    {
        &self.items[..self.count]
    }

    // The item at `at`, or the leaf unit where there is none.
    // No Option: a report would have an arm that never runs.
    pub fn item(&self, at: usize) -> Item
        ensures item { result ≡ slice_index_or (held self.now) at unit_item }
        ensures inner { Inner at self.now.count result }
    {
        self.as_slice()
            .get(at)
            .copied()
            .unwrap_or(Item::Leaf(ProgramLeaf::Unit))
    }

    // One more item, where there is room.
    pub fn push(&mut self, item: Item)
        ensures { held self.new ≡ roomy (held self.old ++ item ∷ []) }
    {
        if self.count < ITEMS {
            self.items[self.count] = item;
            self.count += 1;
        }
    }

    // These items follow, as far as there is room.
    fn push_all(&mut self, items: &[Item])
        ensures { held self.new ≡ roomy (held self.old ++ items.now) }
    {
        for item in items {
            self.push(*item);
        }
    }

    // The items of another value follow, as far as there is room.
    pub fn append(&mut self, other: &Value)
        ensures { held self.new ≡ roomy (held self.old ++ held other.now) }
    {
        self.push_all(other.as_slice());
    }

    // Where the part that begins at `at` ends.
    pub fn end(&self, at: usize) -> usize
        ensures { result ≡ at + passed 1 (drop at (held self.now)) }
    {
        at + first_span(self.as_slice().get(at..).unwrap_or(&[]))
    }

    // The items from `first` on, before `end`.
    pub fn part(&self, first: usize, end: usize) -> Value
        ensures { held result ≡ slice_range (held self.now) first end }
    {
        let items = self.as_slice();
        let before = &items[..end.min(items.len())];
        let mut part = Value::empty();
        part.push_all(&before[first.min(before.len())..]);
        part
    }

    // The handle that the value is.
    pub fn handle(&self) -> Option<u8>
        ensures { result ≡ handle_in (slice_index_or (held self.now) 0 unit_item) }
    {
        match self.item(0) {
            Item::Leaf(ProgramLeaf::Handle(handle)) => Some(handle),
            _ => None,
        }
    }

    // The bit that the value is.
    pub fn bit(&self) -> Option<bool>
        ensures { result ≡ bit_in (slice_index_or (held self.now) 0 unit_item) }
    {
        match self.item(0) {
            Item::Leaf(ProgramLeaf::Bit(bit)) => Some(bit),
            _ => None,
        }
    }
}
