// Rust's `as` between integers: the number modulo 2^w, read as the type that is asked for.
#![tactic(auto, using(crate::proofs::Std::casts))]

ghost use Rattle.std.specs.Prelude.{◌≡◌, ◌^◌, pos};
ghost use Rattle.std.specs.Int.{w32, w64};
ghost use Rattle.words.specs.Words.{word, wrap, floor_div};

// The bits of x.
pub fn i32_as_u32(x: i32) -> u32
    ensures { result ≡ word w32 x }
{
    x.cast_unsigned()
}

// The bits of x.
pub fn i64_as_u64(x: i64) -> u64
    ensures { result ≡ word w64 x }
{
    x.cast_unsigned()
}

// The bits u, read as signed.
pub fn u32_as_i32(u: u32) -> i32
    ensures { result ≡ wrap w32 (pos u) }
{
    u.cast_signed()
}

// The bits u, read as signed.
pub fn u64_as_i64(u: u64) -> i64
    ensures { result ≡ wrap w64 (pos u) }
{
    u.cast_signed()
}

// The same number, with room for more.
pub fn i32_as_i64(x: i32) -> i64
    ensures { result ≡ x }
{
    i64::from(x)
}

// The same number, with room for a sign.
pub fn u32_as_i64(u: u32) -> i64
    ensures { result ≡ pos u }
{
    i64::from(u)
}

// The bits of x, its sign copied into the upper half.
pub fn i32_as_u64(x: i32) -> u64
    ensures { result ≡ word w64 x }
{
    i64::from(x).cast_unsigned()
}

// The low word.
pub fn u64_as_u32(u: u64) -> u32
    ensures { result ≡ word w32 (pos u) }
{
    (u % 0x1_0000_0000) as u32
}

// The low word.
pub fn i64_as_u32(x: i64) -> u32
    ensures { result ≡ word w32 x }
{
    (x.cast_unsigned() % 0x1_0000_0000) as u32
}

// The low word, read as signed.
pub fn i64_as_i32(x: i64) -> i32
    ensures { result ≡ wrap w32 x }
{
    ((x.cast_unsigned() % 0x1_0000_0000) as u32).cast_signed()
}

// The high word, read as signed: `(x >> 32) as i32`.
pub fn i64_high(x: i64) -> i32
    ensures { result ≡ floor_div x (2 ^ 32) }
{
    (x >> 32) as i32
}
