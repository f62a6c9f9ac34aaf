// Scattered pilots.
ghost use Rattle.std.specs.Prelude.{◌≡◌};
ghost use Rattle.layout.specs.Patterns.{first_pilot, on_pattern, pilots_of};
ghost use Rattle.layout.specs.Fit.{Turning, FitPattern};

// Scattered pilots: carrier `c` is a pilot in symbol `g` when `c mod step = shift · (g mod period)`, and the top
// carrier in every symbol.
#[derive(Clone, Copy)]
pub struct Pattern {
    pub step: usize,
    pub shift: usize,
    pub period: usize,
}

impl Pattern {
    // The lowest carrier that the pattern has in symbol g.
    #[tactic(auto, unfolding(crate::specs::Patterns::first_pilot))]
    pub fn first(self, g: usize) -> usize
        requires { Turning self }
        ensures { result ≡ first_pilot self g }
    {
        self.shift * (g % self.period)
    }

    #[tactic(auto, unfolding(crate::specs::Patterns::on_pattern))]
    pub fn is_pilot(self, nc: usize, c: usize, g: usize) -> bool
        requires { FitPattern self nc }
        ensures { result ≡ on_pattern self nc c g }
    {
        c == nc - 1 || c % self.step == self.first(g)
    }

    // Pilots per symbol on `nc` carriers.
    #[tactic(auto, unfolding(crate::specs::Patterns::pilots_of))]
    pub fn pilots(self, nc: usize) -> usize
        requires { FitPattern self nc }
        ensures { result ≡ pilots_of self nc }
    {
        (nc - 1) / self.step + 1
    }
}
