//! Texts compared by their bytes.

ghost use Rattle.std.specs.Prelude.{◌≡◌, ◌↔◌, IsTrue};
ghost use Rattle.std.specs.declared.cmp.Ordering.TheVariants.{Less};
ghost use Rattle.term_numbers.specs.Order.{text_cmp};

/// Whether one text is before another.
pub(crate) fn is_before(one: &[u8], other: &[u8]) -> bool
    ensures { IsTrue result ↔ (text_cmp one.now other.now ≡ Less) }
{
    one.cmp(other).is_lt()
}

/// Whether two texts are the same.
pub(crate) fn is_same(one: &[u8], other: &[u8]) -> bool
    ensures { IsTrue result ↔ (one.now ≡ other.now) }
{
    one == other
}
