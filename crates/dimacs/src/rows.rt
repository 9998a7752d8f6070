// Which number of a line; numbers of data lines, put into a row that is lent.
ghost use Rattle.std.specs.Prelude.{◌≡◌, ◌≤◌, ◌++◌, map, length, drop};
ghost use Rattle.dimacs.specs.Rules.{column_of};
ghost use Rattle.scan.specs.declared.holding.Numbers.{Numbers};

use scan::holding::Numbers;

// Which number without sign of a line. A format's rules are values that are compared, so it is no closure.
#[derive(Clone, Copy)]
pub enum Column {
    First,
    Second,
    Third,
}

// The number without sign.
pub fn natural(ns: Numbers, column: Column) -> u32
    ensures { result ≡ column_of column ns }
{
    match column {
        Column::First => ns.first,
        Column::Second => ns.second,
        Column::Third => ns.third,
    }
}

// A number of each line goes to the front of the row; the rest of it stays.
pub fn put<T: Copy, F: Fn(Numbers) -> T>(lines: &[Numbers], number: F, row: &mut [T])
    requires room { length lines.now ≤ length row.old }
    requires callable { F.IsAlwaysCallable number }
    ensures { (f : Numbers → T) → ((ns : Numbers) (v : T) → F.post number ns v → v ≡ f ns)
        → row.new ≡ map f lines.now ++ drop (length lines.now) row.old }
{
    for (i, ns) in lines.iter().enumerate() {
        row[i] = number(*ns);
    }
}
