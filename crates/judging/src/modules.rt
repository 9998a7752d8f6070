// Refusal 18: a node's module is outside 1 to 32.
ghost use Rattle.std.specs.Prelude.{◌≡◌, ◌≤◌, length};
ghost use Rattle.judging.specs.Order.{module_numbers};

use crate::each::judge_each;
use rules::{MODULES, Refusal};

// Refusal 18 of the lowest node of 1..n whose module is outside 1 to 32.
pub fn judge_modules(n: u32, modules: &[u32]) -> Result<(), Refusal>
    requires { n ≤ length modules.now }
    ensures { result ≡ module_numbers n modules.now }
{
    judge_each(
        n,
        |i| (1 <= modules[i]) & (modules[i] <= MODULES),
        |node| Refusal::BadModule { node },
    )
}
