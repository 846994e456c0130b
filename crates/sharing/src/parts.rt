//! Parts of sizes.
ghost use Rattle.std.specs.Prelude.{◌≡◌, ◌≤◌, min};
ghost use Rattle.sharing.specs.ProRata.{part};

/// So many contracts given of every `whole`.
#[derive(Clone, Copy)]
pub(crate) struct Ratio {
    pub(crate) given: u32,
    pub(crate) whole: u32,
    ghost within: { given ≤ whole },
}

impl Ratio {
    /// A quantity of a whole, or all of it if that is less.
    pub(crate) fn of(quantity: u32, whole: u32) -> Ratio
        ensures given { result.given ≡ min quantity whole }
        ensures whole { result.whole ≡ whole }
    {
        Ratio {
            given: quantity.min(whole),
            whole,
        }
    }

    /// The part of a size, rounded up, which is at most the size; 0 of nothing.
    pub(crate) fn part(self, size: u32) -> u32
        ensures { result ≡ part self.given self.whole size }
    {
        if self.whole == 0 {
            return 0;
        }
        let product = u64::from(size) * u64::from(self.given);
        product.div_ceil(u64::from(self.whole)) as u32
    }
}
