// Each part of the table laid out behind the one before it.
ghost use Rattle.std.specs.Prelude.{◌≡◌, [], ◌∷◌, ◌++◌, ◌+◌, ◌*◌, ◌≤◌, length};
ghost use Rattle.table_whole.specs.Bytes.{in_turn};
ghost use Rattle.store_table.specs.Layout.{count_bytes, label_bytes, item_bytes};
ghost use Rattle.store_table.specs.Laid.{Laid};

use label::Label;
use table_item::Item;

fn count(t: &mut [u8], at: usize, n: u16)
    requires { at + 2 ≤ length t.old }
    ensures { Laid t.old at 2 (count_bytes n) t.new }
{
    t[at] = (n / 256) as u8;
    t[at + 1] = (n % 256) as u8;
}

fn label(t: &mut [u8], at: usize, x: Label)
    requires { at + 33 ≤ length t.old }
    ensures { Laid t.old at 33 (label_bytes x) t.new }
{
    t[at..at + 32].copy_from_slice(&x.bytes);
    t[at + 32] = x.length;
}

// How many of each, and what the site is called.
pub fn head(
    t: &mut [u8],
    components: u16,
    alarms: u16,
    statuses: u16,
    commands: u16,
    site: Label,
    sxl: Label,
)
    requires { 74 ≤ length t.old }
    ensures { Laid t.old 0 74 (count_bytes components ++ (count_bytes alarms ++ (count_bytes statuses ++ (count_bytes commands ++ (label_bytes site ++ label_bytes sxl))))) t.new }
{
    count(t, 0, components);
    count(t, 2, alarms);
    count(t, 4, statuses);
    count(t, 6, commands);
    label(t, 8, site);
    label(t, 41, sxl);
}

pub fn labels(t: &mut [u8], at: usize, rows: &[Label])
    requires { at + 33 * length rows.now ≤ length t.old }
    ensures { Laid t.old at (33 * length rows.now) (in_turn label_bytes rows.now) t.new }
{
    for (k, row) in rows.iter().enumerate() {
        label(t, at + 33 * k, *row);
    }
}

fn three(t: &mut [u8], at: usize, a: u8, b: u8, c: u8)
    requires { at + 3 ≤ length t.old }
    ensures { Laid t.old at 3 (a ∷ b ∷ c ∷ []) t.new }
{
    t[at] = a;
    t[at + 1] = b;
    t[at + 2] = c;
}

fn item(t: &mut [u8], at: usize, x: Item)
    requires { at + 73 ≤ length t.old }
    ensures { Laid t.old at 73 (item_bytes x) t.new }
{
    label(t, at, x.code);
    label(t, at + 33, x.name);
    three(t, at + 66, x.component, x.priority, x.category);
    count(t, at + 69, x.lowest);
    count(t, at + 71, x.highest);
}

pub fn items(t: &mut [u8], at: usize, rows: &[Item])
    requires { at + 73 * length rows.now ≤ length t.old }
    ensures { Laid t.old at (73 * length rows.now) (in_turn item_bytes rows.now) t.new }
{
    for (k, row) in rows.iter().enumerate() {
        item(t, at + 73 * k, *row);
    }
}
