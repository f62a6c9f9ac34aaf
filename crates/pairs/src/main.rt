// Refinements of one burst: with its priors, and with the priors of one cell's own bits negated. `Independence` of phy
// says that this cell's estimate, error and likelihoods are then the same where model and scale are. The lines show
// that there are such pairs, that the other cells' numbers do change, and that the cell's own do where the model is
// another.
#![tactic(auto)]

mod burst;
mod count;

ghost use Rattle.std.specs.Prelude.{◌<◌};

use crate::count::{Numbers, Pair};
use cause::Cause;
use refine::Refined;
use std::io;

fn print_refined(rt: &impl Print, r: Refined) -> io::Result<()> {
    let Refined { model, spoilt } = r;
    let fd = model.fd;
    let tm = model.tm;
    let scale = std::num::f32_to_bits_with_nan(model.scale);
    println!(rt; "'s priors negated: model {fd} {tm}, scale {scale:08x}, spoilt {spoilt}")
}

fn print_refinement(rt: &impl Print, r: Result<Refined, Cause>) -> io::Result<()> {
    match r {
        Ok(refined) => print_refined(rt, refined),
        Err(_) => println!(rt; ": refused"),
    }
}

// The cell whose own priors were negated, and the others.
fn print_own(rt: &impl Print, j: usize, pair: Pair) -> io::Result<()> {
    let l = pair.likelihoods(j);
    let h = pair.channels(j);
    let own = h.equal + l.equal;
    let numbers = h.others;
    let others = l.others;
    println!(rt;
        "  own numbers equal: {own}; other cells' that differ: {numbers} of 33 channel numbers, {others} of 44 likelihoods"
    )
}

// Cell j, another cell's priors negated.
fn print_neighbour(rt: &impl Print, j: usize, pair: Pair) -> io::Result<()> {
    let l = pair.likelihoods(j);
    let h = pair.channels(j);
    let numbers = h.differ;
    let differ = l.differ;
    println!(rt; "  of cell {j} differ: {numbers} of 3 channel numbers, {differ} of 4 likelihoods")
}

// The refinement with cell j's own priors negated, against what the one with none negated gave.
fn print_pair(rt: &impl Print, j: usize, a: &Numbers) -> io::Result<()>
    requires { j < 12 }
{
    let p = burst::priors(Some(j));
    let mut b = Numbers::ZEROS;
    let r = burst::refined(&p, &mut b.likelihoods, &mut b.channel);
    print!(rt; "cell {j}")?;
    print_refinement(rt, r)?;
    let pair = Pair { a, b: &b };
    print_own(rt, j, pair)?;
    print_neighbour(rt, j ^ 1, pair)
}

fn print_pairs(rt: &impl Print, a: &Numbers) -> io::Result<()> {
    // The cell is its number: no list has the cells.
    for j in 0..12usize {
        print_pair(rt, j, a)?;
    }
    Ok(())
}

fn main(rt: HostRuntime) -> io::Result<()> {
    let p = burst::priors(None);
    let mut a = Numbers::ZEROS;
    let r = burst::refined(&p, &mut a.likelihoods, &mut a.channel);
    print!(rt; "no cell")?;
    print_refinement(&rt, r)?;
    print_pairs(&rt, &a)
}
