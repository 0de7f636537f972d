// Record k of a list whose records have STRIDE numbers.
ghost use Rattle.std.specs.Prelude.{◌≡◌, ◌+◌, ◌*◌, ◌≤◌, ◌<◌, length};
ghost use Rattle.format.specs.Lists.{field};

#[derive(Clone, Copy)]
pub struct Record<'a, const STRIDE: usize> {
    pub list: &'a [u64],
    pub k: usize,
    pub ghost held: { STRIDE * k + STRIDE ≤ length list.now },
}

impl<'a, const STRIDE: usize> Record<'a, STRIDE> {
    // Number j of it.
    #[inline]
    pub fn number(&self, j: usize) -> u64
        requires { j < STRIDE }
        ensures { result ≡ field STRIDE self.now.list.now self.now.k j }
    {
        self.list[STRIDE * self.k + j]
    }
}
