// layout: what has no answer gives 0xFFFF or 0, since C has no Option. A layout is a number, since C may pass any:
// those past 8 name the last. `sparse` is the header's bit for the pilots' pattern, which layout's functions take.
ghost use Rattle.std.specs.Prelude.{◌≡◌, cond, not, ◌&&◌, leb, ltb, length};
ghost use Rattle.ieee.specs.Num.{one32};
ghost use Rattle.layout.specs.Layouts.{layout_of};
ghost use Rattle.layout.specs.Maps.{map_of, is_pilot, carriers_at};
ghost use Rattle.layout.specs.Fit.{FitMap};
ghost use Rattle.layout.specs.Carriers.{data_carrier, cell_index};
ghost use Rattle.layout.specs.Known.{known_value};
ghost use Rattle.spread.specs.Flat.{flat};
ghost use Rattle.probes.specs.Within.{Put};

use layout::Map;

fn map_of(number: u32, sparse: bool, gain: f32) -> Map
    ensures { (result ≡ map_of (layout_of number) sparse gain) × FitMap result }
{
    Map::new(layout::layout(number), sparse, gain)
}

fn carriers_at(m: Map, g: usize) -> usize
    requires { FitMap m }
    ensures { result ≡ carriers_at m g }
{
    m.nc - m.pattern(g).pilots(m.nc)
}

pub fn probe_is_pilot(number: u32, sparse: bool, c: usize, g: usize) -> bool
    ensures { result ≡ is_pilot (map_of (layout_of number) sparse one32) c g }
{
    map_of(number, sparse, 1.0).is_pilot(c, g)
}

pub fn probe_data_carrier(number: u32, sparse: bool, g: usize, j: usize) -> usize
    ensures { result ≡ cond (leb 1 g && ltb j (carriers_at (map_of (layout_of number) sparse one32) g)) (data_carrier (map_of (layout_of number) sparse one32) g j) 0xFFFF }
{
    let m = map_of(number, sparse, 1.0);
    if g == 0 || j >= carriers_at(m, g) {
        return 0xFFFF;
    }
    m.data_carrier(g, j)
}

// C passes the symbol first here.
pub fn probe_cell_index(number: u32, sparse: bool, g: usize, c: usize) -> usize
    ensures { result ≡ cond (ltb c (map_of (layout_of number) sparse one32).nc && not (is_pilot (map_of (layout_of number) sparse one32) c g)) (cell_index (map_of (layout_of number) sparse one32) g c) 0xFFFF }
{
    let m = map_of(number, sparse, 1.0);
    if c >= m.nc || m.is_pilot(c, g) {
        return 0xFFFF;
    }
    m.cell_index(g, c)
}

pub fn probe_known(
    number: u32,
    sparse: bool,
    gain: f32,
    boost: f32,
    c: usize,
    g: usize,
    out: &mut [f32],
) -> u32
    ensures { Put (ltb c (map_of (layout_of number) sparse gain).nc && leb g 65535 && leb 2 (length out.old)) 2 (flat (known_value (map_of (layout_of number) sparse gain) boost c g)) out.old result out.new }
{
    let m = map_of(number, sparse, gain);
    if c >= m.nc || g > 65535 || out.len() < 2 {
        return 0;
    }
    m.known(c, g, boost).put(out, 0);
    1
}
