// est.rs, estimate_excl, its second half: what an estimate is made of.
ghost use Rattle.est.specs.Columns.{carriers, symbols};
ghost use Rattle.est.specs.Covariance.{Usable};

use load::Pilot;
use near::Query;

// The channel's power, and where its correlations rf and rt have their centre.
#[derive(Clone, Copy)]
pub struct Field {
    pub ph: f64,
    pub nc: usize,
    pub gw2: usize,
}

// The pilots chosen near a cell, with the channel's power and its correlations: all within the tables' reach.
#[derive(Clone, Copy)]
pub struct Neighbours<'a> {
    pub field: Field,
    pub rf: &'a [f64],
    pub rt: &'a [f64],
    pub q: Query,
    pub ps: &'a [Pilot],
    ghost usable: { Usable field rf.now rt.now q (carriers ps.now) (symbols ps.now) },
}
