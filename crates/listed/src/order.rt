// Where the pilots of each symbol begin, when they stand in order of symbol.
ghost use Rattle.std.specs.Prelude.{◌≡◌, ℕ, ◌≤◌, length, get_or};
ghost use Rattle.seq.specs.Tab.{tab};
ghost use Rattle.listed.specs.Order.{below};

// How many symbols are below g.
fn below(pg: &[u32], g: usize) -> u32
    requires { length pg.now ≤ 118156 }
    ensures { result ≡ below (λ (i : ℕ). get_or pg.now i 0) (length pg.now) g }
{
    let mut n = 0;
    // Not by `filter` and `count`: tried, they take 1.5 to 1.9 times as long, since they test one symbol at a time.
    for s in pg {
        n += u32::from((*s as usize) < g);
    }
    n
}

// Of the symbols from 0 on.
pub fn starts(pg: &[u32], start: &mut [u32])
    requires { length pg.now ≤ 118156 }
    ensures { start.new ≡ tab (length start.old) (below (λ (i : ℕ). get_or pg.now i 0) (length pg.now)) }
{
    for (g, s) in start.iter_mut().enumerate() {
        *s = below(pg, g);
    }
}
