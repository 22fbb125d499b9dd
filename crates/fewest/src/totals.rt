// The errors and counts of all percents tried, block by block.
ghost use Rattle.std.specs.Prelude.{◌≡◌, true, ℕ, ◌+◌, ◌-◌, ◌*◌, ◌≤◌, ◌<◌, length, get_or, replicate};
ghost use Rattle.plane.specs.Plane.{blocks};
ghost use Rattle.fewest.specs.Fewest.{plane_error, plane_nonzeros};
ghost use Rattle.fewest.specs.Blocks.{percent_tables, table_of, block_trial, error_of, count_of, first_of, grown, errors_in, counts_in, Room};

use crate::block_trial::Summed;
use crate::{Trial, Tried};
use fdct::block_sums::scaled_sums;
use percent::percent_table;
use plane::{Plane, blocks_of};

// The tables at percents 1 to 200, one after the other.
pub fn percent_tables(base: &[u8]) -> [u8; 12800]
    requires { length base.now ≡ 64 }
    ensures { result ≡ percent_tables base.now }
{
    let mut tables = [0u8; 12800];
    for p in 0..200 {
        let at = 64 * p;
        let end = at + 64;
        let _ = percent_table(base, (p as u32) + 1, &mut tables[at..end]);
    }
    tables
}

// Whether table p is the one before it.
fn is_repeated(tables: &[u8; 12800], p: usize) -> bool
    requires { p < 200 }
    ensures { result ≡ true → (0 < p) × (table_of tables.now p ≡ table_of tables.now (p - 1)) }
{
    if p == 0 {
        return false;
    }
    let at = 64 * p;
    for n in 0..64 {
        if tables[at + n] != tables[at - 64 + n] {
            return false;
        }
    }
    true
}

// The trial of a block under table p, of the one before it. A table that is the one before it is not tried again.
fn next_trial(last: Trial, block: &Summed, tables: &[u8; 12800], p: usize) -> Trial
    requires p_bound { p < 200 }
    requires last_value { 0 < p → last ≡ block_trial block.now.columns block.now.rows block.now.block block.now.sums (table_of tables.now (p - 1)) }
    requires error_bound { (last.error ≤ 64 * 65025) × (last.count ≤ 64) }
    ensures value { result ≡ block_trial block.now.columns block.now.rows block.now.block block.now.sums (table_of tables.now p) }
    ensures error_bound_2 { (result.error ≤ 64 * 65025) × (result.count ≤ 64) }
{
    if is_repeated(tables, p) {
        return last;
    }
    let at = 64 * p;
    let end = at + 64;
    block.try_table(&tables[at..end])
}

// Adds a block's trials under the first n tables.
fn add_trials(block: &Summed, tables: &[u8; 12800], n: usize, all: &mut [Tried; 200])
    requires room { Room (errors_in all.old) (counts_in all.old) }
    requires n_bound { n ≤ 200 }
    ensures errors_after { errors_in all.new ≡ grown n (λ p. (block_trial block.now.columns block.now.rows block.now.block block.now.sums (table_of tables.now p)).error) (errors_in all.old) }
    ensures counts_after { counts_in all.new ≡ grown n (λ p. (block_trial block.now.columns block.now.rows block.now.block block.now.sums (table_of tables.now p)).count) (counts_in all.old) }
{
    let mut trial = Trial { error: 0, count: 0 };
    for p in 0..n {
        trial = next_trial(trial, block, tables, p);
        let sum = all[p];
        all[p] = Tried {
            error: sum.error + u64::from(trial.error),
            count: sum.count + u64::from(trial.count),
        };
    }
}

// Adds block k of a plane, and answers its count at percent 200.
fn add_block(plane: Plane, k: usize, tables: &[u8; 12800], n: usize, all: &mut [Tried; 200]) -> u32
    requires k_bound { (k < blocks plane.width * blocks plane.height) × (n ≤ 200) }
    requires room { Room (errors_in all.old) (counts_in all.old) }
    ensures value { result ≡ count_of plane.entry.samples.now plane.entry.width plane.entry.height (table_of tables.now 199) k }
    ensures upper_bound { result ≤ 64 }
    ensures errors_after { errors_in all.new ≡ grown n (λ p. error_of plane.entry.samples.now plane.entry.width plane.entry.height (table_of tables.now p) k) (errors_in all.old) }
    ensures counts_after { counts_in all.new ≡ grown n (λ p. count_of plane.entry.samples.now plane.entry.width plane.entry.height (table_of tables.now p) k) (counts_in all.old) }
{
    let across = blocks_of(plane.width);
    let x = k % across;
    let y = k / across;
    let samples = plane.block_at(x, y);
    let block = Summed {
        block: samples,
        sums: scaled_sums(&samples),
        columns: (plane.width - 8 * x).min(8),
        rows: (plane.height - 8 * y).min(8),
    };
    add_trials(&block, tables, n, all);
    block.count_of(&tables[12736..12800])
}

// Adds every block of a plane to errors and counts of 0, and answers the count at percent 200, which is no trial.
pub fn add_plane(plane: Plane, tables: &[u8; 12800], n: usize, all: &mut [Tried; 200]) -> u64
    requires n_bound { n ≤ 200 }
    requires bytes { (i : ℕ) → get_or plane.samples.now i 0 ≤ 255 }
    requires all_value { (errors_in all.old ≡ replicate 200 0) × (counts_in all.old ≡ replicate 200 0) }
    ensures value { result ≡ plane_nonzeros plane.entry.samples.now plane.entry.width plane.entry.height (table_of tables.now 199) }
    ensures errors_after { errors_in all.new ≡ first_of n (λ p. plane_error plane.entry.samples.now plane.entry.width plane.entry.height (table_of tables.now p)) }
    ensures counts_after { counts_in all.new ≡ first_of n (λ p. plane_nonzeros plane.entry.samples.now plane.entry.width plane.entry.height (table_of tables.now p)) }
{
    let mut last = 0;
    let total = plane.blocks();
    for k in 0..total {
        last += u64::from(add_block(plane, k, tables, n, all));
    }
    last
}
