// All of a part of the site stored in the words, whatever they were before.
#![tactic(auto)]

ghost use Rattle.std.specs.Prelude.{◌≡◌, ◌<◌, [], ◌∷◌, length};
ghost use Rattle.bits.specs.Fields.{joined};
ghost use Rattle.site.specs.declared.Site.{Site};
ghost use Rattle.store_site.specs.Turns.{Turns};
ghost use Rattle.store_whole.specs.Filled.{with_head};
ghost use Rattle.store_site.specs.Layout.{site_words};

use aggregated::Aggregated;

pub mod lists; // lists.rt: each list of the site

fn numbers(site: u16, period: u32, links: u16, primary: u16) -> u64
    ensures { result ≡ joined 0 (1 ∷ 31 ∷ 16 ∷ 16 ∷ []) (site ∷ period ∷ links ∷ primary ∷ []) }
{
    let w = bits::push(0, 1, site as u64);
    let w = bits::push(w, 31, period as u64);
    let w = bits::push(w, 16, links as u64);
    bits::push(w, 16, primary as u64)
}

pub fn put_head(
    w: &mut [u64],
    next: u64,
    last: u64,
    site: u16,
    period: u32,
    links: u16,
    primary: u16,
    changed: Aggregated,
)
    requires { (length w.old ≡ site_words) × ((site < 2) × (period < 2147483648)) }
    ensures { Turns (λ (s : Site). with_head s next last site period links primary changed) w.old w.new }
{
    let both = numbers(site, period, links, primary);
    w[0] = next;
    w[1] = last;
    w[2] = both;
    w[3] = changed.time;
    w[4] = changed.value;
}
