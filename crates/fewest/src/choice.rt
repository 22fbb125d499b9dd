// The search over errors and counts that are worked out: the list's place p - 1 is percent p's.
ghost use Rattle.std.specs.Prelude.{◌≡◌, ◌≤◌, ◌<◌, suc, IfSome};
ghost use Rattle.lists.specs.Tab.{tab};
ghost use Rattle.fewest.specs.Fewest.{tried, best};
ghost use Rattle.fewest.specs.Told.{found_in};
ghost use Rattle.fewest.specs.Blocks.{errors_in, counts_in, at_percent};

use crate::Tried;

// The better one of a percent found before, if any, and a larger one, p.
fn better_percent(limit: u64, all: &[Tried; 200], found: Option<usize>, p: usize) -> Option<usize>
    requires found_lt_p { IfSome found (λ q. (1 ≤ q) × (q < p)) }
    requires p_bound { (1 ≤ p) × (p ≤ 200) }
    ensures value { found_in result ≡ tried limit (at_percent (errors_in all.now)) (at_percent (counts_in all.now)) (found_in found) p }
    ensures bounds { IfSome result (λ q. (1 ≤ q) × (q ≤ p)) }
{
    if all[p - 1].error > limit {
        return found;
    }
    match found {
        Some(q) if all[q - 1].count < all[p - 1].count => found,
        _ => Some(p),
    }
}

// The best of percents 1 to n, if one is good.
pub fn best_percent(limit: u64, all: &[Tried; 200], n: usize) -> Option<usize>
    requires { n ≤ 200 }
    ensures value { found_in result ≡ best limit (at_percent (errors_in all.now)) (at_percent (counts_in all.now)) (tab n suc) }
    ensures bounds { IfSome result (λ q. (1 ≤ q) × (q ≤ n)) }
{
    let mut found = None;
    for p in 0..n {
        found = better_percent(limit, all, found, p + 1);
    }
    found
}
