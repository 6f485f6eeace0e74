// Rows of the site table in place, found by what they are called, and whether one is called like another.
#![tactic(auto)]

ghost use Rattle.std.specs.Prelude.{◌≡◌, get_or};
ghost use Rattle.label.specs.Label.{no_label, text_of};
ghost use Rattle.table_item.specs.Item.{no_item, is_item};
ghost use Rattle.table_item.specs.Find.{find_label, find_item, own_label, own_item, own_labels, own_items, found_at, item_like};

use label::Label;

// A row of the alarms, the statuses or the commands: an alarm has no name, only an alarm has priority and category, only a command a lowest and a
// highest value, as 16 bits in two's complement.
#[repr(C)]
#[derive(Clone, Copy)]
pub struct Item {
    pub code: Label,
    pub name: Label,
    pub component: u8,
    pub priority: u8,
    pub category: u8,
    pub lowest: u16,
    pub highest: u16,
}

#[derive(Clone, Copy)]
pub enum Found {
    At(usize),
    Nothing,
}

pub fn none() -> Item
    ensures { result ≡ no_item }
{
    Item {
        code: label::none(),
        name: label::none(),
        component: 0,
        priority: 0,
        category: 0,
        lowest: 0,
        highest: 0,
    }
}

pub fn label_in(labels: &[Label], i: usize) -> Label
    ensures { result ≡ get_or labels.now i no_label }
{
    labels.get(i).copied().unwrap_or(label::none())
}

pub fn item_in(items: &[Item], i: usize) -> Item
    ensures { result ≡ get_or items.now i no_item }
{
    items.get(i).copied().unwrap_or(none())
}

// The first of the count labels that is this text.
pub fn find_label(labels: &[Label], count: usize, text: &[u8]) -> Found
    ensures { result ≡ find_label labels.now count text.now }
{
    for i in 0..count {
        if label::is(label_in(labels, i), text) {
            return Found::At(i);
        }
    }
    Found::Nothing
}

// Whether a row is called so.
#[tactic(auto, unfolding(crate::specs::Item::is_item))]
pub fn is(row: Item, component: u8, code: &[u8], name: &[u8]) -> bool
    ensures { result ≡ is_item component code.now name.now row }
{
    row.component == component && label::is(row.code, code) && label::is(row.name, name)
}

// The first of the count rows that is called so.
pub fn find_item(items: &[Item], count: usize, component: u8, code: &[u8], name: &[u8]) -> Found
    ensures { result ≡ find_item items.now count component code.now name.now }
{
    for i in 0..count {
        if is(item_in(items, i), component, code, name) {
            return Found::At(i);
        }
    }
    Found::Nothing
}

fn found_at(f: Found, i: usize) -> bool
    ensures { result ≡ found_at i f }
{
    match f {
        Found::At(j) => i == j,
        Found::Nothing => false,
    }
}

fn find_label_like(labels: &[Label], count: usize, l: Label) -> Found
    ensures { result ≡ find_label labels.now count (text_of l) }
{
    let n = label::size(l);
    let bytes = l.bytes;
    find_label(labels, count, &bytes[0..n])
}

fn find_item_like(items: &[Item], count: usize, row: Item) -> Found
    ensures { result ≡ item_like items.now count row }
{
    let code = row.code;
    let name = row.name;
    let m = label::size(code);
    let n = label::size(name);
    let a = code.bytes;
    let b = name.bytes;
    find_item(items, count, row.component, &a[0..m], &b[0..n])
}

fn own_label(labels: &[Label], count: usize, i: usize) -> bool
    ensures { result ≡ own_label labels.now count i }
{
    found_at(find_label_like(labels, count, label_in(labels, i)), i)
}

fn own_item(items: &[Item], count: usize, i: usize) -> bool
    ensures { result ≡ own_item items.now count i }
{
    found_at(find_item_like(items, count, item_in(items, i)), i)
}

// Whether none of the count labels is like another.
pub fn own_labels(labels: &[Label], count: usize) -> bool
    ensures { result ≡ own_labels labels.now count }
{
    (0..count).all(|i| own_label(labels, count, i))
}

// Whether none of the count rows is called like another.
pub fn own_items(items: &[Item], count: usize) -> bool
    ensures { result ≡ own_items items.now count }
{
    (0..count).all(|i| own_item(items, count, i))
}
