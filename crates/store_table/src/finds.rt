// The first row that is called so. Behind the last row there are labels and rows without a text.
ghost use Rattle.std.specs.Prelude.{◌≡◌, ◌+◌, ◌*◌, ◌≤◌, length};
ghost use Rattle.table_item.specs.Find.{label_at, item_at, find_label, find_item};
ghost use Rattle.store_table.specs.Layout.{labels_in, items_in};

use super::rows;
use table_item::Found;

fn is_label(t: &[u8], i: usize, k: usize, text: &[u8]) -> bool
    requires { i + 264 ≤ length t.now }
    ensures { result ≡ label_at (labels_in t.now i) text.now k }
{
    if k < 8 {
        rows::label_is(t, i + 33 * k, text)
    } else {
        label::is(label::none(), text)
    }
}

pub fn label(t: &[u8], i: usize, count: usize, text: &[u8]) -> Found
    requires { i + 264 ≤ length t.now }
    ensures { result ≡ find_label (labels_in t.now i) count text.now }
{
    for k in 0..count {
        if is_label(t, i, k, text) {
            return Found::At(k);
        }
    }
    Found::Nothing
}

fn is_item(t: &[u8], i: usize, n: usize, k: usize, component: u8, code: &[u8], name: &[u8]) -> bool
    requires { i + 73 * n ≤ length t.now }
    ensures { result ≡ item_at (items_in t.now i n) component code.now name.now k }
{
    if k < n {
        rows::item_is(t, i + 73 * k, component, code, name)
    } else {
        table_item::is(table_item::none(), component, code, name)
    }
}

// Among n rows from i on.
pub fn item(
    t: &[u8],
    i: usize,
    n: usize,
    count: usize,
    component: u8,
    code: &[u8],
    name: &[u8],
) -> Found
    requires { i + 73 * n ≤ length t.now }
    ensures { result ≡ find_item (items_in t.now i n) count component code.now name.now }
{
    for k in 0..count {
        if is_item(t, i, n, k, component, code, name) {
            return Found::At(k);
        }
    }
    Found::Nothing
}
