ghost use Rattle.std.specs.Prelude.{◌≡◌, ◌^◌, ◌<◌, ◌≤◌, get_or};
ghost use Rattle.points.specs.Constellation.{bps_of, points_of, corner_of, qpsk_of, psk8_of, labels, circle_point, gray_of, label_of, qam_scale, level, qam_row, qam_of};

use crate::table::{Points, count};
use dsp::Complex;
use std::f32::consts::FRAC_1_SQRT_2;
use std::f64::consts::{FRAC_PI_4, PI};

#[tactic(auto, unfolding(crate::specs::Constellation::corner_of))]
fn corner(label: usize) -> Complex
    ensures { result ≡ corner_of label }
{
    let k = FRAC_1_SQRT_2;
    let b0 = label / 2 % 2;
    let b1 = label % 2;
    Complex::new(k * (1.0 - 2.0 * b0 as f32), k * (1.0 - 2.0 * b1 as f32))
}

#[tactic(auto, using(crate::proofs::Loops::loops, crate::proofs::Same::same_table), unfolding(crate::specs::Table::blank, crate::specs::Constellation::qpsk_turn, crate::specs::Constellation::qpsk_of))]
fn qpsk() -> Points
    ensures { result ≡ qpsk_of }
{
    let mut pts = [0f32; 128];
    // by number: a label is its point's place, too
    for label in 0..4 {
        corner(label).put(&mut pts, label);
    }
    Points { bps: 2, pts }
}

const GRAY: [usize; 8] = [0, 1, 3, 2, 6, 7, 5, 4];

// The point m eighths of a turn past the first. `PI / 8.0`, not FRAC_PI_8: the source's frame.rs divides, and so does
// the definition `angle`.
#[tactic(auto, unfolding(crate::specs::Constellation::circle_point, crate::specs::Constellation::angle))]
fn on_circle(m: usize) -> Complex
    requires { m < 8 }
    ensures { result ≡ circle_point m }
{
    let a = FRAC_PI_4 * m as f64 + PI / 8.0;
    Complex::new(
        ieee::narrow(elementary::cos(a)),
        ieee::narrow(elementary::sin(a)),
    )
}

#[tactic(auto, using(crate::proofs::Loops::loops, crate::proofs::Same::same_table), unfolding(crate::specs::Table::blank, crate::specs::Constellation::psk8_turn, crate::specs::Constellation::psk8_of))]
fn psk8() -> Points
    ensures { result ≡ psk8_of }
{
    let mut pts = [0f32; 128];
    for (m, &label) in GRAY.iter().enumerate() {
        on_circle(m).put(&mut pts, label);
    }
    Points { bps: 3, pts }
}

#[tactic(auto, unfolding(crate::specs::Constellation::gray_of))]
fn gray(i: usize) -> usize
    ensures { result ≡ gray_of i }
{
    i ^ (i >> 1)
}

// The label of level i in phase and level q in quadrature, with b bits an axis: at most 3, a clause here and below. b
// is what `points` passes, and a type of such numbers would be made for that call and opened here.
#[tactic(auto, using(crate::proofs::Counts::label_shifted, crate::proofs::Counts::label_below), unfolding(crate::specs::Constellation::label_of))]
fn label(b: usize, i: usize, q: usize) -> usize
    requires { (b ≤ 3) × (i < 2 ^ b) × (q < 2 ^ b) }
    ensures { (result ≡ label_of b i q) × (result < 64) }
{
    (gray(i) << b) | gray(q)
}

// The scale at which m levels an axis have unit mean energy.
#[tactic(auto, unfolding(crate::specs::Constellation::qam_scale))]
fn scale(m: usize) -> f32
    requires { (0 < m) × (m ≤ 8) }
    ensures { result ≡ qam_scale m }
{
    1.0 / ieee::sqrt((2.0 * (m * m - 1) as f32) / 3.0)
}

#[tactic(auto, unfolding(crate::specs::Constellation::level))]
fn level(k: f32, m: usize, i: usize) -> f32
    requires { (i < m) × (m ≤ 8) }
    ensures { result ≡ level k m i }
{
    k * (2.0 * i as f32 - (m - 1) as f32)
}

#[tactic(auto, using(crate::proofs::Loops::loops, crate::proofs::Counts::at_most_8), unfolding(crate::specs::Constellation::qam_turn, crate::specs::Constellation::qam_row))]
fn qam_row(pts: &mut [f32; 128], b: usize, i: usize)
    requires { (b ≤ 3) × (i < 2 ^ b) }
    ensures { pts.new ≡ qam_row b i pts.old }
{
    let m = count(b);
    let k = scale(m);
    let re = level(k, m, i);
    // by number: the points lie by their labels, in another order
    for q in 0..m {
        Complex::new(re, level(k, m, q)).put(pts, label(b, i, q));
    }
}

// Square QAM with b Gray-coded bits an axis.
#[tactic(auto, using(crate::proofs::Loops::loops, crate::proofs::Same::same_table), unfolding(crate::specs::Table::blank, crate::specs::Constellation::qam_of))]
fn qam(b: usize) -> Points
    requires { b ≤ 3 }
    ensures { (few : b ≤ 3) → result ≡ qam_of b few }
{
    let mut pts = [0f32; 128];
    let m = count(b);
    // by number, as the levels of a row
    for i in 0..m {
        qam_row(&mut pts, b, i);
    }
    Points { bps: 2 * b, pts }
}

// By the code of a burst's header, as a number: document 01 has a match on the code choose among the four. Codes above
// 3 name the last.
#[tactic(auto, using(crate::proofs::Counts::from_three), unfolding(crate::specs::Constellation::points_of))]
pub fn points(code: u32) -> Points
    ensures { result ≡ points_of code }
{
    match code {
        0 => qpsk(),
        1 => psk8(),
        2 => qam(2),
        _ => qam(3),
    }
}

// By the code too: sizes are asked for where no table is wanted.
pub fn bits_a_point(code: u32) -> usize
    ensures { result ≡ bps_of code }
{
    match code {
        0 => 2,
        1 => 3,
        2 => 4,
        _ => 6,
    }
}
