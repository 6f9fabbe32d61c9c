// What lines and answers list: numbers of some bytes each, spelled with two digits a byte.
ghost use Rattle.std.specs.Prelude.{ℕ, ◌^◌, ◌≤◌, ◌<◌};
ghost use Rattle.std.proofs.Common.{rules};

pub trait Element: Copy + PartialEq {
    ghost BYTES: { ℕ };

    // The bytes of one.
    const BYTES: usize;

    // What fills memory before it is lent.
    const FILL: Self;

    // The one whose bits are the lowest of a number.
    fn of_bits(bits: u64) -> Self;

    // The number of its bits.
    fn bits(self) -> u64
        ensures { result < 256 ^ BYTES };

    ghost some_bytes: { (0 < BYTES) × (BYTES ≤ 8) };
}

impl Element for u8 {
    ghost BYTES = { 1 };

    ghost some_bytes = { Prim.search rules };

    const BYTES: usize = 1;

    const FILL: u8 = 0xa5;

    fn of_bits(bits: u64) -> u8 {
        (bits % 256) as u8
    }

    fn bits(self) -> u64 {
        u64::from(self)
    }
}

impl Element for u32 {
    ghost BYTES = { 4 };

    ghost some_bytes = { Prim.search rules };

    const BYTES: usize = 4;

    const FILL: u32 = 0xa5a5_a5a5;

    fn of_bits(bits: u64) -> u32 {
        (bits % 4_294_967_296) as u32
    }

    fn bits(self) -> u64 {
        u64::from(self)
    }
}

impl Element for u64 {
    ghost BYTES = { 8 };

    ghost some_bytes = { Prim.search rules };

    const BYTES: usize = 8;

    const FILL: u64 = 0xa5a5_a5a5_a5a5_a5a5;

    fn of_bits(bits: u64) -> u64 {
        bits
    }

    fn bits(self) -> u64 {
        self
    }
}

impl Element for i16 {
    ghost BYTES = { 2 };

    ghost some_bytes = { Prim.search rules };

    const BYTES: usize = 2;

    const FILL: i16 = 0x5aa5;

    fn of_bits(bits: u64) -> i16 {
        ((bits % 65536) as u16).cast_signed()
    }

    fn bits(self) -> u64 {
        u64::from(self.cast_unsigned())
    }
}

impl Element for i32 {
    ghost BYTES = { 4 };

    ghost some_bytes = { Prim.search rules };

    const BYTES: usize = 4;

    const FILL: i32 = 0x5aa5_5aa5;

    fn of_bits(bits: u64) -> i32 {
        u32::of_bits(bits).cast_signed()
    }

    fn bits(self) -> u64 {
        u64::from(self.cast_unsigned())
    }
}
