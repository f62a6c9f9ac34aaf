// The numbers past the fields.
ghost use Rattle.std.specs.Prelude.{◌≡◌, ◌+◌, ◌*◌, ◌≤◌, length};
ghost use Rattle.seq.specs.Tab.{tab};
ghost use Rattle.wire.specs.Record.{number_at};

use words::word_at;

// As many as the list holds.
#[tactic(auto, using(seq::specs::Tab::Laws::tab_none, seq::specs::Tab::Laws::tab_step))]
pub fn numbers(record: &[u8], out: &mut [f32])
    requires { 6 + 4 * length out.old ≤ length «record».now }
    ensures { out.new ≡ tab (length out.old) (number_at «record».now) }
{
    // By place: tried, `zip` with `chunks_exact(4)`. After it no fact ties `out` to what was stored through `iter_mut`.
    for (i, x) in out.iter_mut().enumerate() {
        *x = std::num::f32_from_bits_with_nan(word_at(record, 6 + 4 * i));
    }
}
