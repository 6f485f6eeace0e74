// A count, a label, a row of the table at a place.
ghost use Rattle.std.specs.Prelude.{◌≡◌, ◌+◌, ◌*◌, ◌≤◌, length, get_or};
ghost use Rattle.basis.specs.Lists.{same_bytes};
ghost use Rattle.label.specs.Label.{text_of};
ghost use Rattle.table_item.specs.Item.{no_item, is_item};
ghost use Rattle.store_table.specs.Layout.{count_in, label_in, item_in, items_in};

use label::Label;
use table_item::Item;

pub fn count_at(t: &[u8], i: usize) -> u16
    requires { i + 2 ≤ length t.now }
    ensures { result ≡ count_in t.now i }
{
    256 * u16::from(t[i]) + u16::from(t[i + 1])
}

pub fn label_at(t: &[u8], i: usize) -> Label
    requires { i + 33 ≤ length t.now }
    ensures { result ≡ label_in t.now i }
{
    let end = i + 32;
    let part = label::of(&t[i..end]);
    Label {
        length: t[end],
        ..part
    }
}

pub fn item_at(t: &[u8], i: usize) -> Item
    requires { i + 73 ≤ length t.now }
    ensures { result ≡ item_in t.now i }
{
    let code = label_at(t, i);
    let name = label_at(t, i + 33);
    Item {
        code,
        name,
        component: t[i + 66],
        priority: t[i + 67],
        category: t[i + 68],
        lowest: count_at(t, i + 69),
        highest: count_at(t, i + 71),
    }
}

// The row of number k of the n rows from i on; none behind the last.
pub fn row(t: &[u8], i: usize, n: usize, k: usize) -> Item
    requires { i + 73 * n ≤ length t.now }
    ensures { result ≡ get_or (items_in t.now i n) k no_item }
{
    if k < n {
        item_at(t, i + 73 * k)
    } else {
        table_item::none()
    }
}

// Whether the label there is this text, byte for byte.
pub fn label_is(t: &[u8], i: usize, s: &[u8]) -> bool
    requires { i + 33 ≤ length t.now }
    ensures { result ≡ same_bytes (text_of (label_in t.now i)) s.now }
{
    let end = i + usize::from(t[i + 32]).min(32);
    check::same(&t[i..end], s)
}

// Whether the row there is called so.
#[tactic(auto, unfolding(crate::specs::Layout::item_in, table_item::specs::Item::is_item))]
pub fn item_is(t: &[u8], i: usize, component: u8, code: &[u8], name: &[u8]) -> bool
    requires { i + 73 ≤ length t.now }
    ensures { result ≡ is_item component code.now name.now (item_in t.now i) }
{
    t[i + 66] == component && label_is(t, i, code) && label_is(t, i + 33, name)
}
