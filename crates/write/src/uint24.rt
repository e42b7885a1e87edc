// A number of 24 bits.
ghost use Rattle.std.specs.Prelude.{◌^◌, ◌<◌};

pub mod writing;

#[derive(Clone, Copy, PartialEq, Eq, PartialOrd, Ord, Debug)]
pub struct Uint24 {
    value: u32,
    ghost small: { value < 2 ^ 24 },
}
