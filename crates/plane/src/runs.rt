// Samples next to one another, copied.
ghost use Rattle.std.specs.Prelude.{◌≡◌, ◌+◌, ◌≤◌, length, drop};
ghost use Rattle.std.proofs.Math.Seq.{paste};

// Copies n samples from place `from` on to place `at` and on; all other places keep their content.
// Where n is a literal the compiler makes one move of it.
pub fn copy_run(samples: &[u8], from: usize, n: usize, out: &mut [u8], at: usize)
    requires n_in_bounds { from + n ≤ length samples.now }
    requires n_in_bounds_2 { at + n ≤ length out.old }
    ensures { out.new ≡ paste out.old at (drop from samples.now) n }
{
    let to = at + n;
    let until = from + n;
    out[at..to].copy_from_slice(&samples[from..until]);
}
