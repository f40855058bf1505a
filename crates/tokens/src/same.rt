// Two lists of bytes.
ghost use Rattle.std.specs.Prelude.{◌≡◌};
ghost use Rattle.arpa.specs.Lines.{eq_bytes};

// Whether they are the same.
#[tactic(auto, using(crate::proofs::Bytes::same_is))]
pub fn same_bytes(a: &[u8], b: &[u8]) -> bool
    ensures { result ≡ eq_bytes a.now b.now }
{
    a == b
}
