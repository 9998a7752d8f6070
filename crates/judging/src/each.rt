// A test of each number of 1..count: refused by the lowest that fails.
ghost use Rattle.std.specs.Prelude.{◌≡◌, ℕ, Bool, ◌<◌};
ghost use Rattle.rules.specs.Judging.{each};
ghost use Rattle.rules.specs.declared.Refusal.{Refusal};
ghost use Rattle.judging.specs.Each.{Tests, Refuses};

use rules::Refusal;

// The number at each place, counted from 0, is tested in one pass with no way out, which is compiled to wide instructions. The lowest
// that fails is looked for only where there is one.
pub fn judge_each<G: Fn(usize) -> bool, R: Fn(u32) -> Refusal>(
    count: u32,
    good: G,
    refusal: R,
) -> Result<(), Refusal>
    requires tests { (i : ℕ) → i < count → G.pre good i }
    requires refuses { R.IsAlwaysCallable refusal }
    ensures { (test : ℕ → Bool) (refuse : ℕ → Refusal) → Tests count (G.post good) test → Refuses (R.post refusal) refuse → result ≡ each test refuse count }
{
    let places = count as usize;
    let mut all = true;
    for i in 0..places {
        all = all & good(i);
    }
    if all {
        return Ok(());
    }
    for at in 0..places {
        if !good(at) {
            return Err(refusal((at + 1) as u32));
        }
    }
    Ok(())
}
