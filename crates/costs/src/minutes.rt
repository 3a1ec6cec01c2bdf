ghost use Rattle.std.specs.Prelude.{◌^◌, ◌<◌};

mod sums;

// Minutes in all, 0 to 4,294,967,295.
// `fits` rules out larger totals in proofs: a sum that is held at the largest would lower those.
#[derive(Clone, Copy, PartialEq, Eq, Debug)]
pub struct Minutes {
    pub total: u32,
    ghost fits: { total < 2 ^ 32 },
}
