// The data symbols, judged one after the other.
ghost use Rattle.std.specs.Prelude.{◌≡◌, ◌+◌, ◌*◌, ◌≤◌, length};
ghost use Rattle.load.specs.Fit.{ncell};
ghost use Rattle.judge.specs.Symbol.{JudgedUpto};
ghost use Rattle.refine.specs.Back.{SpreadBy};

use expect::Shape;
use judge::{Judge, Spreading};
use spread::Spreader;

// What a spread burst's symbols are equalised by: of another, soft points and twiddle factors would mean nothing.
pub fn spreading_of(m: Shape, soft: &[f32]) -> Option<Spreading<'_>>
    requires { (1 ≤ m.dc) × (m.dc ≤ 109) }
    ensures { SpreadBy m soft.now result }
{
    if !m.spread {
        return None;
    }
    Some(Spreading {
        spreader: Spreader::new(m.dc),
        soft,
    })
}

pub fn judge_symbols(j: &Judge, channel: &mut [f32], answer: &mut [f32])
    requires count { j.now.source.ng ≡ j.now.source.map.hdr_end + j.now.shape.nsym }
    requires room { (ncell j.now.source * 3 ≤ length channel.old) × (ncell j.now.source * j.now.shape.bps ≤ length answer.old) }
    ensures { JudgedUpto j.now (j.now.shape.nsym * j.now.source.dc) channel.old answer.old channel.new answer.new }
{
    // t numbers the symbol, whose stretches of both lists `symbol` finds.
    for t in 0..j.shape.nsym {
        j.symbol(t, channel, answer);
    }
}
