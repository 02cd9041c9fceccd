//! What a new pack stands for.
ghost use Rattle.std.specs.Prelude.{◌≡◌, ℕ, List, Ok, length};
ghost use Rattle.ckd_image.specs.declared.header.Geometry.{Geometry};
ghost use Rattle.pack_spec.specs.New.{IsNewImage, IsNewPack, new_volume};
ghost use Rattle.pack_spec.specs.Settled.{IsSettled};
ghost use Rattle.pack_spec.specs.Volume.{volume_of};

/// The image of a new pack mounts, and stands for a volume without data sets and without a catalog, whose
/// VTOC begins at track 1. It is settled, so a mount finds nothing to repair.
pub fn new_pack_law()
    ensures volume { (g : Geometry) (serial image : List ℕ) (tracks : ℕ) → IsNewPack g tracks
        → length serial ≡ 6 → IsNewImage g serial tracks image
        → volume_of image ≡ Ok (new_volume g serial tracks) }
    ensures settled { (g : Geometry) (serial image : List ℕ) (tracks : ℕ) → IsNewPack g tracks
        → length serial ≡ 6 → IsNewImage g serial tracks image → IsSettled image }
{}
