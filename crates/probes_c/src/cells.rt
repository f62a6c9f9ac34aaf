// layout: what has no answer gives 0xFFFF or 0, since C has no Option. A layout is a number, since C may pass any:
// those past 8 name the last. `sparse` is the header's bit for the pilots' pattern, which layout's functions take.
ghost use Rattle.std.specs.Prelude.{◌≡◌, cond, not, ◌&&◌, leb, ltb, length};
ghost use Rattle.ieee.specs.Num.{one32};
ghost use Rattle.layout.specs.Layouts.{layout_of};
ghost use Rattle.layout.specs.Maps.{map_of, is_pilot, carriers_at};
ghost use Rattle.layout.specs.Fit.{FitMap};
ghost use Rattle.layout.specs.Carriers.{data_carrier, cell_index};
ghost use Rattle.layout.specs.Known.{known_value};
ghost use Rattle.spread.specs.Flat.{flat};
ghost use Rattle.probes.specs.Within.{Put};

#[unsafe(no_mangle)]
pub extern "C" fn probe_is_pilot(number: u32, sparse: bool, c: usize, g: usize) -> bool
    ensures { result ≡ is_pilot (map_of (layout_of number) sparse one32) c g }
{
    probes::probe_is_pilot(number, sparse, c, g)
}

#[unsafe(no_mangle)]
pub extern "C" fn probe_data_carrier(number: u32, sparse: bool, g: usize, j: usize) -> usize
    ensures { result ≡ cond (leb 1 g && ltb j (carriers_at (map_of (layout_of number) sparse one32) g)) (data_carrier (map_of (layout_of number) sparse one32) g j) 0xFFFF }
{
    probes::probe_data_carrier(number, sparse, g, j)
}

#[unsafe(no_mangle)]
pub extern "C" fn probe_cell_index(number: u32, sparse: bool, g: usize, c: usize) -> usize
    ensures { result ≡ cond (ltb c (map_of (layout_of number) sparse one32).nc && not (is_pilot (map_of (layout_of number) sparse one32) c g)) (cell_index (map_of (layout_of number) sparse one32) g c) 0xFFFF }
{
    probes::probe_cell_index(number, sparse, g, c)
}

#[unsafe(no_mangle)]
pub extern "C" fn probe_known(
    number: u32,
    sparse: bool,
    gain: f32,
    boost: f32,
    c: usize,
    g: usize,
    out: &mut [f32],
) -> u32
    ensures { Put (ltb c (map_of (layout_of number) sparse gain).nc && leb g 65535 && leb 2 (length out.old)) 2 (flat (known_value (map_of (layout_of number) sparse gain) boost c g)) out.old result out.new }
{
    probes::probe_known(number, sparse, gain, boost, c, g, out)
}
