// An answer in bytes, the most significant first.
ghost use Rattle.std.specs.Prelude.{◌≡◌, ◌++◌, ◌+◌, ◌*◌, ◌≤◌, length, drop};
ghost use Rattle.wire.specs.Bytes.{number_bytes, report_bytes};

use refine::Refined;
use words::put_word;

// The numbers' patterns; a not-a-number is 7FC00000.
pub fn put_numbers(src: &[f32], out: &mut [u8])
    requires { 4 * length src.now ≤ length out.old }
    ensures { out.new ≡ number_bytes (length src.now) src.now ++ drop (4 * length src.now) out.old }
{
    // By index: tried, `zip` with `out.chunks_exact_mut(4)`. After it no fact ties `out` to what was put there.
    for (i, x) in src.iter().enumerate() {
        put_word(
            std::num::f32_to_bits_with_nan(*x),
            &mut out[i * 4..i * 4 + 4],
        );
    }
}

// Both indices of the model, the scale, the spoilt likelihoods.
#[tactic(auto, unfolding(crate::specs::Bytes::report_bytes))]
fn put_report(r: Refined, out: &mut [u8])
    requires { (r.model.fd ≤ 255) × (r.model.tm ≤ 255) × (length out.old ≡ 10) }
    ensures { out.new ≡ report_bytes r }
{
    let (model, numbers) = out.split_at_mut(2);
    let (scale, spoilt) = numbers.split_at_mut(4);
    model.copy_from_slice(&[r.model.fd as u8, r.model.tm as u8]);
    put_word(std::num::f32_to_bits_with_nan(r.model.scale), scale);
    put_word(r.spoilt, spoilt);
}

pub fn put_answer(r: Refined, answer: &[f32], out: &mut [u8])
    requires { (r.model.fd ≤ 255) × (r.model.tm ≤ 255) × (10 + 4 * length answer.now ≤ length out.old) }
    ensures { out.new ≡ (report_bytes r ++ number_bytes (length answer.now) answer.now) ++ drop (10 + 4 * length answer.now) out.old }
{
    let (report, numbers) = out.split_at_mut(10);
    put_report(r, report);
    put_numbers(answer, numbers);
}
