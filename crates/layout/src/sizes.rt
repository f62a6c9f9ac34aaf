// How many symbols, carriers and cells there are.
ghost use Rattle.std.specs.Prelude.{◌≡◌, ◌≤◌};
ghost use Rattle.layout.specs.Sizes.{pre_syms, sym_of, pattern_of, data_carriers_of, ng_of, ncell_of};
ghost use Rattle.layout.specs.Fit.{FitSizes};

use crate::layouts::Layout;
use crate::pattern::Pattern;

impl Layout {
    // Whole OFDM symbol, samples.
    pub fn sym(self) -> usize
        requires { FitSizes self }
        ensures { result ≡ sym_of self }
    {
        self.n + self.cp
    }

    // Grid symbols before the data: the reference symbol and the header.
    pub fn pre_syms(self) -> usize
        requires { FitSizes self }
        ensures { result ≡ pre_syms self }
    {
        1 + self.hdr_syms
    }

    // `sparse` stands for the source's enum `Pilots` here and in all that hand it on: the header's field and C's
    // parameter are this bit, the definitions are over it, and an enum would be made of it at each entry for two
    // choices, this one and that of the grid of a burst's models (crate `model`, `fd_grid`).
    #[tactic(auto, unfolding(crate::specs::Sizes::pattern_of))]
    pub fn pattern(self, sparse: bool) -> Pattern
        ensures { result ≡ pattern_of self sparse }
    {
        if sparse { self.sparse } else { self.robust }
    }

    // Data carriers per symbol.
    #[tactic(auto, using(crate::proofs::Fits::pattern_fits, crate::proofs::Fits::pilots_le,), unfolding(crate::specs::Sizes::data_carriers_of,))]
    pub fn data_carriers(self, sparse: bool) -> usize
        requires { FitSizes self }
        ensures { result ≡ data_carriers_of self sparse }
    {
        self.nc - self.pattern(sparse).pilots(self.nc)
    }

    // Grid symbols of a burst of nsym data symbols.
    pub fn ng(self, nsym: usize) -> usize
        requires { FitSizes self × (nsym ≤ 1023) }
        ensures { result ≡ ng_of self nsym }
    {
        self.pre_syms() + nsym
    }

    // Its data cells.
    #[tactic(auto, using(crate::proofs::Fits::cells_le))]
    pub fn ncell(self, sparse: bool, nsym: usize) -> usize
        requires { FitSizes self × (nsym ≤ 1023) }
        ensures { result ≡ ncell_of self sparse nsym }
    {
        nsym * self.data_carriers(sparse)
    }
}
