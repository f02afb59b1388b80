// Bytes compared.
ghost use Rattle.std.specs.Prelude.{◌≡◌};
ghost use Rattle.text.specs.Order.{precedes};
ghost use Rattle.text.specs.Same.{same};

// Whether two slices hold the same bytes.
pub fn same_bytes(a: &[u8], b: &[u8]) -> bool
    ensures { result ≡ same a.now b.now }
{
    a == b
}

// Whether the bytes a come before the bytes b in ascending order: the first byte that differs decides, and a beginning
// comes before the whole.
#[tactic(auto, using(crate::proofs::Order::ascending))]
pub fn comes_before(a: &[u8], b: &[u8]) -> bool
    ensures { result ≡ precedes a.now b.now }
{
    a < b
}
