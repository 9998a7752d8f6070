// Refusal 14: an arc's closure is neither 0 nor 1.
ghost use Rattle.std.specs.Prelude.{◌≡◌, ◌≤◌, length};
ghost use Rattle.judging.specs.Order.{closures};

use crate::each::judge_each;
use rules::Refusal;

// Refusal 14 of the lowest arc of 1..m whose closure is neither 0 nor 1.
pub fn judge_closures(m: u32, row: &[u8]) -> Result<(), Refusal>
    requires { m ≤ length row.now }
    ensures { result ≡ closures m row.now }
{
    judge_each(m, |i| row[i] <= 1, |arc| Refusal::BadClosure { arc })
}
