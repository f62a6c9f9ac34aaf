// One symbol of a spread burst: what its soft points say of it as sent. dc, how many carriers it has, is no list's
// length: a list has two or three numbers a carrier, and may be longer. Nor is a symbol a part of its list: the
// definitions say which of the list's it is, t.
ghost use Rattle.std.specs.Prelude.{◌≡◌, ◌++◌, ◌+◌, ◌*◌, ◌≤◌, length, drop};
ghost use Rattle.std.specs.Prelude.{map};
ghost use Rattle.std.specs.List.{fold, range_with_len};
ghost use Rattle.ieee.specs.Num.{◌⊞◌};
ghost use Rattle.points.specs.Power.{minus_zero};
ghost use Rattle.spread.specs.Spreader.{twiddles_of};
ghost use Rattle.expect.specs.Expect.{row_means, row_variance, var_at, spread_means, spread_variance, scaled_cells, spread_row};

use dsp::Complex;
use soft::Soft;
use spread::Spreader;

// The means of symbol t, re and im. That `(t * dc + dc) * 3` numbers are lent bounds an index, here and below.
#[tactic(auto, using(crate::proofs::Loops::numbers), unfolding(crate::specs::Expect::row_means))]
pub fn row_means(dc: usize, soft: &[f32], t: usize, out: &mut [f32])
    requires { ((t * dc + dc) * 3 ≤ length soft.now) × (2 * dc ≤ length out.old) }
    ensures { out.new ≡ row_means dc soft.now t ++ drop (2 * dc) out.old }
{
    let base = t * dc;
    for j in 0..dc {
        let cell = base + j;
        Soft::at(soft, cell).mean.put(out, j);
    }
}

// The sum of its variances.
fn row_sum(dc: usize, soft: &[f32], t: usize) -> f32
    requires { (t * dc + dc) * 3 ≤ length soft.now }
    ensures { result ≡ fold (λ s x. s ⊞ x) minus_zero (map (λ j. var_at soft.now (t * dc + j)) (range_with_len 0 dc)) }
{
    let base = t * dc;
    (0..dc).map(|j| Soft::at(soft, base + j).var).sum()
}

// Their mean. dc is bounded so that an f32 holds it.
pub fn row_variance(dc: usize, soft: &[f32], t: usize) -> f32
    requires { (dc ≤ 109) × ((t * dc + dc) * 3 ≤ length soft.now) }
    ensures { result ≡ row_variance dc soft.now t }
{
    row_sum(dc, soft, t) / dc as f32
}

// The means of the symbol whose soft points these are, spread, before the gain.
#[tactic(auto, using(crate::proofs::Front::spread_front))]
pub fn spread_means(sp: &Spreader, points: &[f32], means: &mut [f32])
    requires { (sp.now.tw ≡ twiddles_of sp.now.m) × (sp.now.m * 3 ≤ length points.now) × (2 * sp.now.m ≤ length means.old) }
    ensures { means.new ≡ spread_means sp.now.m points.now 0 ++ drop (2 * sp.now.m) means.old }
{
    row_means(sp.m, points, 0, means);
    sp.forward(means);
}

// The variance of each of its cells as sent.
pub fn spread_variance(sp: &Spreader, gain: f32, points: &[f32]) -> f32
    requires { sp.now.m * 3 ≤ length points.now }
    ensures { result ≡ spread_variance sp.now.m points.now 0 gain }
{
    gain * gain * row_sum(sp.m, points, 0) / sp.m as f32
}

// Cells of the means row times the gain, and of one variance.
#[tactic(auto, using(crate::proofs::Loops::cells, crate::proofs::Written::cell_step), unfolding(crate::specs::Expect::scaled_cells))]
pub fn scaled_cells(dc: usize, gain: f32, mv: f32, row: &[f32], out: &mut [f32])
    requires { (2 * dc ≤ length row.now) × (dc * 3 ≤ length out.old) }
    ensures { out.new ≡ scaled_cells dc gain mv row.now ++ drop (dc * 3) out.old }
{
    for j in 0..dc {
        let s = Soft {
            mean: Complex::at(row, j).scale(gain),
            var: mv,
        };
        s.put(out, j);
    }
}

// The symbol as sent, in place of its soft points: its means spread, its variance shared evenly.
#[tactic(auto, using(crate::proofs::Front::row_is))]
pub fn spread_row(sp: &Spreader, gain: f32, row: &mut [f32])
    requires { (sp.now.tw ≡ twiddles_of sp.now.m) × (length row.old ≡ sp.now.m * 3) }
    ensures { row.new ≡ spread_row sp.now.m row.old 0 gain }
{
    let mut means = [0f32; 218];
    spread_means(sp, row, &mut means);
    let mv = spread_variance(sp, gain, row);
    scaled_cells(sp.m, gain, mv, &means, row);
}
