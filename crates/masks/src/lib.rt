// Masks of modules 1 to 32, bit module minus 1, and the lamps of the panel.
#![tactic(auto)]

ghost use Rattle.std.specs.Prelude.{◌≡◌, ◌≤◌};
ghost use Rattle.masks.specs.Mask.{has_b, lighted};
ghost use Rattle.masks.specs.Paper.{paper};
ghost use Rattle.masks.specs.Says.{LampsSays};

use rules::Refusal;

// Whether a mask has module j.
pub fn has(mask: u32, j: u32) -> bool
    requires { (1 ≤ j) × (j ≤ 32) }
    ensures { result ≡ has_b mask j }
{
    (mask >> (j - 1)) & 1 == 1
}

// A mask with module j as well.
pub fn with_module(mask: u32, j: u32) -> u32
    requires { (1 ≤ j) × (j ≤ 32) }
    ensures { result ≡ lighted mask j }
{
    mask | (1 << (j - 1))
}

// The numbers of a mask's modules, lowest first, into a row of at least 32 places: how many there are.
pub fn lamps(mask: u32, row: &mut [u32]) -> Result<u32, Refusal>
    ensures { LampsSays mask row.old (paper result) row.new }
{
    if row.len() < 32 {
        return Err(Refusal::RowTooShort);
    }
    // each turn takes the lowest module away, so it goes by what is left and not by a count
    let mut rest = mask;
    let mut at = 0;
    while 0 < rest {
        let low = rest.trailing_zeros();
        row[at] = low + 1;
        rest -= 1 << low;
        at += 1;
    }
    Ok(mask.count_ones())
}
