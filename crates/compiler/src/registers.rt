// The registers of a translated program: 0 B, 1 N, 2 H, then k of V, m of X, 2m of Y (01, "Translation").
ghost use Rattle.std.specs.Prelude.{◌≡◌, ◌<◌};
ghost use Rattle.compiler.specs.Translation.{reg_v, reg_x, reg_y};

pub(crate) const REG_B: u16 = 0;

pub(crate) const REG_N: u16 = 1;

pub(crate) const REG_H: u16 = 2;

pub(crate) fn reg_v(t: usize) -> u16
    requires { reg_v t < 65536 }
    ensures { result ≡ reg_v t }
{
    (3 + t) as u16
}

// What the registers of a program depend on: the k bits that write a row, and the m rows.
#[derive(Clone, Copy)]
pub(crate) struct Layout {
    pub k: usize,
    pub m: usize,
}

impl Layout {
    pub(crate) fn reg_x(self, i: usize) -> u16
        requires { reg_x self.k i < 65536 }
        ensures { result ≡ reg_x self.k i }
    {
        (3 + self.k + i) as u16
    }

    pub(crate) fn reg_y(self, j: usize) -> u16
        requires { reg_y self.k self.m j < 65536 }
        ensures { result ≡ reg_y self.k self.m j }
    {
        (3 + self.k + self.m + j) as u16
    }
}
