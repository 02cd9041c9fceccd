//! Extents, as the DSCBs of data sets and of the VTOC have them.
ghost use Rattle.std.specs.Prelude.{◌≡◌, ℕ, IsTrue};
ghost use Rattle.ckd_image.specs.Header.{HasGeometry};
ghost use Rattle.pack_spec.specs.Vtoc.{is_counted_type, is_extent, is_field_type, lower_of, run_of_extent, type_of, upper_of};

use ckd_image::Geometry;
use pack_spec::Address;
use pack_spec::layout::{
    self, CYLINDER_EXTENT, DATA_EXTENT, LOWER_AT, NO_EXTENT, TYPE_AT, UPPER_AT,
};
use vol_model::Run;

// The bytes of an extent in a DSCB.
pub(crate) type Row = layout::Extent;

// An extent, or a field for one that has none.
#[derive(Clone, Copy)]
pub(crate) struct Extent {
    pub kind: u8,
    // Its first track.
    pub lower: Address,
    // Its last track.
    pub upper: Address,
}

impl Extent {
    // The extent that a DSCB has.
    pub(crate) fn read(row: &Row) -> Extent
        ensures kind { result.kind ≡ type_of row.now }
        ensures lower { result.lower ≡ lower_of row.now }
        ensures upper { result.upper ≡ upper_of row.now }
    {
        Extent {
            kind: row[TYPE_AT],
            lower: Address::read(row, LOWER_AT),
            upper: Address::read(row, UPPER_AT),
        }
    }
}

// Whether a field for an extent has one whose type is read, or none.
pub(crate) fn is_field_type(row: &Row) -> bool
    ensures { result ≡ is_field_type row.now }
{
    matches!(
        Extent::read(row).kind,
        NO_EXTENT | DATA_EXTENT | CYLINDER_EXTENT
    )
}

// Whether an extent has a type that is read.
pub(crate) fn is_counted_type(row: &Row) -> bool
    ensures { result ≡ is_counted_type row.now }
{
    matches!(Extent::read(row).kind, DATA_EXTENT | CYLINDER_EXTENT)
}

// Whether an extent is a run of tracks of the image.
pub(crate) fn is_extent(geometry: Geometry, row: &Row) -> bool
    requires { (len : ℕ) × HasGeometry len geometry }
    ensures { result ≡ is_extent geometry row.now }
{
    let extent = Extent::read(row);
    extent.lower.is_inside(geometry)
        && extent.upper.is_inside(geometry)
        && extent.lower.track(geometry) <= extent.upper.track(geometry)
}

// The tracks of an extent, which is one of the image.
pub(crate) fn run_of(geometry: Geometry, row: &Row) -> Run
    requires geometry { (len : ℕ) × HasGeometry len geometry }
    requires extent { IsTrue (is_extent geometry row.now) }
    ensures { result ≡ run_of_extent geometry row.now }
{
    let extent = Extent::read(row);
    let start = extent.lower.track(geometry);
    Run {
        start,
        len: extent.upper.track(geometry) - start + 1,
    }
}
