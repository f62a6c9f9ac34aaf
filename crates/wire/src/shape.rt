// How long a record is by its fields, and the rows of the table of causes that this decides.
ghost use Rattle.std.specs.Prelude.{◌≡◌, IfOk};
ghost use Rattle.cause.specs.Causes.{number_of};
ghost use Rattle.table.specs.Sizes.{Counted};
ghost use Rattle.wire.specs.Record.{fields};
ghost use Rattle.wire.specs.Sizes.{plain, sizes_of};
ghost use Rattle.wire.specs.Shape.{bad_record, bad_length, shape_refusal, bits_in};

use crate::fields::{Fields, fields_of, head};
use cause::Cause;

// Carriers, data cells, cells of the grid, bits.
#[derive(Clone, Copy)]
pub struct Sizes {
    pub nc: usize,
    pub ncell: usize,
    pub grid: usize,
    pub nbits: usize,
}

#[tactic(auto, unfolding(crate::specs::Sizes::sizes_of))]
pub fn sizes_of(f: Fields) -> Sizes
    requires { Counted (plain f) }
    ensures { result ≡ sizes_of f }
{
    let s = f.plain();
    Sizes {
        nc: table::nc(s),
        ncell: refine::ncell(s),
        grid: table::grid_cells(s),
        nbits: refine::nbits(s),
    }
}

#[tactic(auto, unfolding(crate::specs::Shape::bad_record, crate::specs::Record::padding))]
fn bad_record(record: &[u8]) -> bool
    ensures { result ≡ bad_record «record».now }
{
    record.len() < 6 || record.len() > 8192 || head(record) % 4 != 0
}

#[tactic(auto, using(crate::proofs::Reading::lengths), unfolding(crate::specs::Shape::bad_length))]
fn bad_length(record: &[u8], f: Fields, z: Sizes) -> bool
    requires read { f ≡ fields «record».now }
    requires counted { Counted (plain f) }
    requires sized { z ≡ sizes_of f }
    ensures { result ≡ bad_length «record».now }
{
    let count = 3 + z.nc + z.ncell + 2 * z.grid + f.priors;
    record.len() != 6 + 4 * count
}

// The sizes of a record of an accepted shape, else the first row that turns it away.
#[tactic(auto, using(crate::proofs::Rows::rows), unfolding(crate::specs::Shape::shape_refusal))]
pub fn sizes_in(record: &[u8]) -> Result<Sizes, Cause>
    ensures refused { number_of result ≡ shape_refusal «record».now }
    ensures accepted { IfOk result (λ z. z ≡ sizes_of (fields «record».now)) }
{
    if bad_record(record) {
        return Err(Cause::Record);
    }
    let f = fields_of(head(record));
    table::settings_verdict(f.plain())?;
    let z = sizes_of(f);
    if bad_length(record, f, z) {
        return Err(Cause::Record);
    }
    Ok(z)
}

// Bits of a record of an accepted shape.
pub fn bits(record: &[u8]) -> Option<usize>
    ensures { result ≡ bits_in «record».now }
{
    Some(sizes_in(record).ok()?.nbits)
}
